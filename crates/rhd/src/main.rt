//! The program: reads a session text, and prints the replies.
#![tactic(auto)]

ghost use Rattle.std.specs.Prelude.{◌≡◌, ◌≢◌};
ghost use Rattle.std.specs.IoError.{error_kind};
ghost use Rattle.std.specs.declared.io.ErrorKind.TheVariants.{OutOfMemory};

use rhd_func::{Natives, PluginFunc};
use rhd_tool::{Reading, Writing, kit, run_tool};
use std::alloc::{AllocError, Global};
use std::process::ExitCode;
use std::{env, io, mem};

/// The words after the program's name.
fn own_words(alloc: Global, args: env::Args) -> Result<Vec<String>, AllocError> {
    let mut words = Vec::new(alloc);
    for word in args.skip(1) {
        words.push(word)?;
    }
    Ok(words)
}

/// The status of a run whose words can't be read: one isn't valid UTF-8, or memory ran out.
fn unread_words(error: &io::Error) -> u8
    ensures memory { error_kind error.now ≡ OutOfMemory → result ≡ 5 }
    ensures words { error_kind error.now ≢ OutOfMemory → result ≡ 1 }
{
    match error.kind() {
        io::ErrorKind::OutOfMemory => 5,
        _ => 1,
    }
}

fn main(rt: HostRuntime) -> ExitCode {
    let alloc = rt.alloc();
    let args = match env::args(&rt) {
        Ok(args) => args,
        Err(error) => return ExitCode::from(unread_words(&error)),
    };
    let Ok(words) = own_words(alloc, args) else {
        return ExitCode::from(5);
    };
    let mut natives = Natives::new(alloc);
    kit!(alloc, natives, return ExitCode::from(5));
    let mut source = Reading::new(rt.reader());
    let mut sink = Writing::new(io::writer(&rt));
    let end = run_tool(alloc, words.as_slice(), &mut source, &mut sink, natives);
    let status = ExitCode::from(end.status);
    // The process ends here, and all its memory goes with it at once.
    mem::forget(end);
    status
}
