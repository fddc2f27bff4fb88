//! A native, bodies, a host and files other than those of `rhd_kit` and `rhd_files`.

use crate::tests::{SEEDS, holds, int, text_of};
use rhd_call::{Command, Commands};
use rhd_engine::{Builtins, Limits, Printers};
use rhd_files::{FileAnswer, FileTable, Files, MemFiles};
use rhd_func::{
    Bodies, CallDone, CallRequest, CallShape, Carry, Host, HostAnswer, NativeCallContext,
    NativeStep, Natives, PluginFunc, ScriptFuncDef,
};
use rhd_loader::PlanLoader;
use rhd_manifest::Manifests;
use rhd_session::Session;
use rhd_text::{print_replies, read_call};
use rhd_value::{Dynamic, EvalAltResult, OutOfMemory, Position, Text, TypeTag, Values};
use std::alloc::Global;
use std::process::Abort;

/// A native that asks the call of `g`, and answers what that answers.
#[derive(Drop)]
struct Relay {}

impl PluginFunc for Relay {
    ghost use Rattle.std.specs.Prelude.{[], true, false};

    ghost info = { λ _. record { types = []; is_method = false; has_context = false; is_pure = true; is_volatile = false } };

    ghost allows_call = { λ _ _ _ _ _. Unit {0} };

    ghost allows_resume = { λ _ _ _ _ _. Unit {0} };

    fn call(
        &self,
        alloc: Global,
        _ctx: Option<&NativeCallContext>,
        first: Option<Dynamic>,
        args: Values,
    ) -> Result<NativeStep, OutOfMemory> {
        let mut name = Text::new(alloc);
        name.push("g")?;
        let request = CallRequest::Named {
            name,
            token: None,
            native_only: false,
            shape: CallShape::Plain(args),
            want: None,
            pos: Position::NONE,
        };
        let carry = Carry {
            first,
            kept: int(0),
        };
        Ok(NativeStep::Ask { request, carry })
    }

    fn resume(
        &self,
        _alloc: Global,
        _ctx: Option<&NativeCallContext>,
        carry: Carry,
        done: CallDone,
    ) -> Result<NativeStep, OutOfMemory> {
        let Carry { first, kept: _ } = carry;
        let CallDone { answer, first: _ } = done;
        match answer {
            Ok(answer) => Ok(NativeStep::Done { answer, first }),
            Err(fault) => Ok(NativeStep::Failed { fault, first }),
        }
    }

    fn param_types(&self) -> &[TypeTag] {
        &[]
    }

    fn is_method_call(&self) -> bool {
        false
    }

    fn has_context(&self) -> bool {
        false
    }

    fn is_pure(&self) -> bool {
        true
    }

    fn is_volatile(&self) -> bool {
        false
    }
}

/// Bodies and a host that count what they are asked.
#[derive(Drop)]
struct Counts {
    asked: i64,
}

impl Bodies for Counts {
    ghost allows_start = { λ _ _ _ _ _ _ _. Unit {0} };

    ghost allows_next = { λ _ _ _ _ _ _ _. Unit {0} };

    fn start(
        &mut self,
        _alloc: Global,
        _def: &ScriptFuncDef,
        _ctx: &NativeCallContext,
        this: Option<Dynamic>,
        _args: Values,
    ) -> Result<NativeStep, OutOfMemory> {
        self.asked = self.asked.wrapping_add(1);
        Ok(NativeStep::Done {
            answer: int(self.asked),
            first: this,
        })
    }

    fn resume(
        &mut self,
        _alloc: Global,
        _def: &ScriptFuncDef,
        _ctx: &NativeCallContext,
        carry: Carry,
        _done: CallDone,
    ) -> Result<NativeStep, OutOfMemory> {
        Ok(NativeStep::Done {
            answer: carry.kept,
            first: carry.first,
        })
    }
}

impl Host for Counts {
    ghost allows_missing = { λ _ _ _ _ _ _. Unit {0} };

    fn missing(
        &mut self,
        alloc: Global,
        _name: &Text,
        _args: &Values,
        _is_method: bool,
    ) -> Result<HostAnswer, OutOfMemory> {
        self.asked = self.asked.wrapping_add(1);
        let mut text = Text::new(alloc);
        if self.asked > 1 && text.push("twice").is_ok() {
            let fault = EvalAltResult::ErrorRuntime(text, Position::NONE);
            return Ok(HostAnswer::Fault(fault));
        }
        Ok(HostAnswer::Value(int(self.asked)))
    }
}

/// The commands of a call of a native, and of one that nothing answers.
fn commands(alloc: Global) -> Commands {
    let mut commands = Commands::new(alloc);
    let _ = commands.push(Command::RegisterFn {
        name: text_of(alloc, "f"),
        id: rhd_value::FnId(0),
    });
    for line in [b"call f".as_slice(), b"ref g 1".as_slice()] {
        if let Ok(Some(call)) = read_call(alloc, line, 1) {
            let _ = commands.push(Command::Call(call));
        }
    }
    commands
}

/// Files of which the first that is there is read, and no read after it succeeds.
#[derive(Drop)]
struct Once {
    table: FileTable,
    is_read: bool,
    faults: u64,
}

impl Files for Once {
    ghost texts = { λ it. it.table };

    ghost faults = { λ it. it.faults };

    fn read(&mut self, alloc: Global, path: &Text) -> Result<FileAnswer, OutOfMemory> {
        let Some(text) = self.table.get(path) else {
            return Ok(FileAnswer::NoFile);
        };
        if self.is_read {
            self.faults = self.faults.saturating_add(1);
            return Ok(FileAnswer::Failed);
        }
        self.is_read = true;
        Ok(FileAnswer::Found(text.dup(alloc)?))
    }
}

/// The commands of imports by paths, and of a call into the first.
fn imports(alloc: Global) -> Commands {
    let mut commands = Commands::new(alloc);
    let _ = commands.push(Command::ImportPath {
        name: text_of(alloc, "m"),
        path: text_of(alloc, "m"),
    });
    if let Ok(Some(call)) = read_call(alloc, b"qual m f", 1) {
        let _ = commands.push(Command::Call(call));
    }
    for path in ["m", "none"] {
        let _ = commands.push(Command::ImportPath {
            name: text_of(alloc, "m"),
            path: text_of(alloc, path),
        });
    }
    commands
}

/// Runs the commands with these natives and files, and compares the replies.
fn check_run<F: Files>(
    rt: &impl Abort,
    alloc: Global,
    natives: Natives,
    files: F,
    commands: Commands,
    wanted: &[u8],
) {
    let builtins = Builtins::new(alloc);
    assert!(rt; builtins.fits(&natives), "no built-in function");
    let manifests = Manifests::new(alloc);
    assert!(rt; manifests.fits(&natives), "no manifest");
    let made = Session::new(
        alloc,
        natives,
        manifests,
        files,
        PlanLoader::new(),
        SEEDS,
        Limits::DEFAULT,
        builtins,
        Printers::NONE,
    );
    let Ok(mut session) = made else {
        panic!(rt; "a session");
    };
    assert!(rt; commands.len() < 10, "a few commands");
    let mut host = Counts { asked: 0 };
    let mut bodies = Counts { asked: 0 };
    let Ok(replies) = session.run_commands(alloc, commands, &mut host, &mut bodies) else {
        panic!(rt; "replies");
    };
    let mut out = Vec::new(alloc);
    let printed = print_replies(alloc, replies.as_slice(), &mut out);
    holds(rt, printed.is_ok(), "printed");
    holds(rt, out.as_slice() == wanted, "what is answered");
}

#[test]
fn other_natives_bodies_and_hosts_are_run(rt: HostRuntime) {
    let alloc = rt.alloc();
    let mut natives = Natives::new(alloc);
    let Ok(made) = Box::new(alloc, Relay {}) else {
        panic!(&rt; "a native");
    };
    let native: Box<dyn PluginFunc> = made;
    let pushed = natives.push(alloc, native);
    holds(&rt, pushed.is_ok(), "a native goes last");
    let files = MemFiles::new(FileTable::new(alloc), Vec::new(alloc));
    let wanted = b"ok\nf global0#0 called = 1\n  g - host = 1\ng - host ! 15 \"twice\" & 1\n";
    check_run(&rt, alloc, natives, files, commands(alloc), wanted);
}

#[test]
fn other_files_are_read(rt: HostRuntime) {
    let alloc = rt.alloc();
    let mut table = FileTable::new(alloc);
    let put = table.insert(text_of(alloc, "m.rhai"), text_of(alloc, "fn f () 0"));
    holds(&rt, put.is_ok(), "a file");
    let files = Once {
        table,
        is_read: false,
        faults: 0,
    };
    let wanted = b"ok\nm::f import0@0 called = 1\n! 12 \"m\"\n! 12 \"none\"\n";
    check_run(
        &rt,
        alloc,
        Natives::new(alloc),
        files,
        imports(alloc),
        wanted,
    );
}
