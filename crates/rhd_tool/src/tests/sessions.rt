//! Requests, functions, modules, sessions, and a run of a text.

ghost use Rattle.std.specs.Prelude.{◌<◌, length};

use crate::tests::{SEEDS, holds, int, one, text_of};
use crate::tool::run_tool;
use crate::{PlainSink, PlainSource, PlanBodies, TableHost, kit};
use rhd_call::{Command, Commands, ModuleId, Replies, Reply};
use rhd_engine::{Builtins, Limits, Printers};
use rhd_files::{FileTable, MemFiles};
use rhd_func::{
    BodyId, CallRequest, CallShape, FnAccess, HostAnswer, NativeCallContext, Natives, PluginFunc,
    RhaiFunc, ScriptFuncDef, SharedDef,
};
use rhd_layers::SharedModule;
use rhd_loader::PlanLoader;
use rhd_manifest::Manifests;
use rhd_module::Module;
use rhd_names::OpToken;
use rhd_session::Session;
use rhd_text::{BodyPlans, print_replies, print_reply, read_call};
use rhd_value::{Entries, FnId, Position, Texts, TypeTag};
use std::alloc::Global;
use std::process::Abort;

#[test]
fn requests_and_replies_are_made(rt: HostRuntime) {
    let alloc = rt.alloc();
    let shape = CallShape::Plain(one(alloc, int(1)));
    holds(&rt, shape.dup(alloc).is_ok(), "arguments are copied");
    let request = CallRequest::Named {
        name: text_of(alloc, "f"),
        token: None,
        native_only: false,
        shape,
        want: None,
        pos: Position::NONE,
    };
    holds(&rt, request.dup(alloc).is_ok(), "a request is copied");
    let read = read_call(alloc, b"call f 1", 1);
    holds(&rt, matches!(read, Ok(Some(_))), "a call line is read");
    let mut commands = Commands::new(alloc);
    let command = Command::Call(request);
    holds(&rt, command.dup(alloc).is_ok(), "a command is copied");
    holds(&rt, commands.push(command).is_ok(), "a command goes last");
    let mut out = Vec::new(alloc);
    let reply = Reply::Made(ModuleId(3));
    holds(&rt, print_reply(alloc, &reply, &mut out).is_ok(), "printed");
    let mut replies = Replies::new(alloc);
    holds(&rt, replies.push(reply).is_ok(), "a reply goes last");
    let printed = print_replies(alloc, replies.as_slice(), &mut out);
    holds(&rt, printed.is_ok(), "replies are printed");
    holds(
        &rt,
        out.as_slice() == b"module 3\nmodule 3\n".as_slice(),
        "as text",
    );
}

/// A script that takes nothing.
fn script(alloc: Global) -> ScriptFuncDef {
    ScriptFuncDef {
        name: text_of(alloc, "s"),
        params: Texts::new(alloc),
        this_type: None,
        access: FnAccess::Public,
        body: BodyId(0),
    }
}

/// An empty module.
fn module(rt: &impl Abort, alloc: Global) -> Module {
    match Module::new(alloc, SEEDS) {
        Ok(module) => module,
        Err(_) => panic!(rt; "a module"),
    }
}

/// Declares a script in a module, and in one that has another owner.
fn check_script(rt: &impl Abort, alloc: Global) {
    let script = script(alloc);
    holds(rt, script.dup(alloc).is_ok(), "a script is copied");
    let Ok(def) = SharedDef::new(alloc, script) else {
        panic!(rt; "a definition");
    };
    let Ok(other) = def.dup(alloc) else {
        panic!(rt; "another owner");
    };
    let mut module = module(rt, alloc);
    holds(rt, module.set_script_fn(alloc, def).is_ok(), "a script");
    holds(rt, module.dup(alloc).is_ok(), "a module is copied");
    let Ok(shared) = SharedModule::new(alloc, module) else {
        panic!(rt; "a module that is shared");
    };
    let Ok(mut second) = shared.dup(alloc) else {
        panic!(rt; "another owner");
    };
    holds(rt, second.set_script_fn(alloc, other).is_ok(), "a script");
}

/// Declares a native in a module, and calls it.
fn check_native(rt: &impl Abort, alloc: Global, natives: &Natives)
    requires { 1 < length natives.now.items.items }
{
    let mut module = module(rt, alloc);
    let set = module.set_native_fn(alloc, natives, text_of(alloc, "n"), FnId(1));
    holds(rt, set.is_ok(), "a native is declared");
    holds(rt, module.count() == (0, 1, 0), "one declaration");
    let Ok(step) = natives.start(alloc, FnId(1), None, None, one(alloc, int(1))) else {
        panic!(rt; "a native is called");
    };
    holds(rt, step.dup(alloc).is_ok(), "a step is copied");
}

/// Copies what functions are told and answer.
fn check_copies(rt: &impl Abort, alloc: Global) {
    let context = NativeCallContext {
        name: text_of(alloc, "f"),
        source: None,
        call_source: None,
        pos: Position::NONE,
        level: 1,
        tag: int(0),
    };
    holds(rt, context.dup(alloc).is_ok(), "a context is copied");
    let answer = HostAnswer::Value(int(1));
    holds(rt, answer.dup(alloc).is_ok(), "an answer is copied");
    let func = RhaiFunc::Pure {
        func: FnId(0),
        has_context: false,
        is_pure: true,
        is_volatile: false,
    };
    holds(rt, func.dup(alloc).is_ok(), "a function is copied");
}

#[test]
fn modules_are_made(rt: HostRuntime) {
    let alloc = rt.alloc();
    check_script(&rt, alloc);
    let mut natives = Natives::new(alloc);
    kit!(alloc, natives, panic!(&rt; "natives"));
    if natives.len() == 20 {
        check_native(&rt, alloc, &natives);
    }
    check_copies(&rt, alloc);
}

/// Commands that make a module and a call.
fn commands(alloc: Global) -> Commands {
    let mut commands = Commands::new(alloc);
    let _ = commands.push(Command::NewModule);
    if let Ok(Some(call)) = read_call(alloc, b"call + 1 2", 1) {
        let _ = commands.push(Command::Call(call));
    }
    commands
}

#[test]
fn a_session_answers_twice(rt: HostRuntime) {
    let alloc = rt.alloc();
    let mut natives = Natives::new(alloc);
    kit!(alloc, natives, panic!(&rt; "natives"));
    let mut builtins = Builtins::new(alloc);
    let set = builtins.set(alloc, OpToken::Plus, TypeTag::Int, TypeTag::Int, FnId(7));
    holds(&rt, set.is_ok(), "a built-in function");
    assert!(&rt; builtins.fits(&natives), "natives that are held");
    let manifests = Manifests::new(alloc);
    assert!(&rt; manifests.fits(&natives), "no manifest");
    let made = Session::new(
        alloc,
        natives,
        manifests,
        MemFiles::new(FileTable::new(alloc), Vec::new(alloc)),
        PlanLoader::new(),
        SEEDS,
        Limits::DEFAULT,
        builtins,
        Printers::NONE,
    );
    let Ok(mut session) = made else {
        panic!(&rt; "a session");
    };
    let mut host = TableHost::new(Entries::new(alloc));
    let mut bodies = PlanBodies::new(BodyPlans::new(alloc));
    let commands = commands(alloc);
    assert!(&rt; commands.len() < 10, "a few commands");
    let replies = session.run(alloc, commands.as_slice(), &mut host, &mut bodies);
    holds(&rt, replies.is_ok(), "commands are answered");
    let replies = session.run_commands(alloc, commands, &mut host, &mut bodies);
    holds(&rt, replies.is_ok(), "commands are taken");
}

#[test]
fn a_text_is_run(rt: HostRuntime) {
    let alloc = rt.alloc();
    let mut natives = Natives::new(alloc);
    kit!(alloc, natives, panic!(&rt; "natives"));
    let Ok(bytes) = Vec::from_slice(alloc, b"call f") else {
        panic!(&rt; "bytes");
    };
    let Ok(word) = String::from_str(alloc, "run") else {
        panic!(&rt; "a word");
    };
    let mut source = PlainSource::new(bytes);
    let mut sink = PlainSink::new(alloc);
    let end = run_tool(alloc, &[word], &mut source, &mut sink, natives);
    holds(&rt, end.status == 0 && end.replies.len() == 1, "a reply");
    let wanted = b"f - call ! 1 \"f ()\"\n";
    holds(&rt, sink.bytes() == wanted.as_slice(), "what is written");
}
