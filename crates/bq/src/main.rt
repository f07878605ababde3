//! The program `bq`: standard input, and files that its words name, to standard output.
#![tactic(auto)]

mod errors;
mod top;

use crate::errors::tell_usage;
use crate::top::serve;
use cmd_dispatch::name_file;
use cmd_feeds::{feeds_of, file_in};
use io_streams::{FileSource, Status, StdSink, StdSource};
use std::alloc::AllocError;
use std::env;
use std::io::ErrorKind;
use std::process::ExitCode;

fn main(rt: HostRuntime) -> ExitCode {
    let words = match words(&rt) {
        Ok(words) => words,
        Err(Status::Usage) => {
            tell_usage(&mut StdSink::new(rt.stderr()));
            return ExitCode::from(Status::Usage.number());
        }
        Err(status) => return ExitCode::from(status.number()),
    };
    let Ok(mut files) = files(&rt, &words) else {
        return ExitCode::from(Status::Memory.number());
    };
    let mut input = StdSource::new(rt.stdin());
    let mut output = StdSink::new(rt.stdout());
    let mut errors = StdSink::new(rt.stderr());
    let status = serve(
        rt.alloc(),
        &words,
        &mut input,
        &mut files,
        &mut output,
        &mut errors,
    );
    ExitCode::from(status.number())
}

// The words after the program's name. A word that is no text is wrong usage.
fn words(rt: &HostRuntime) -> Result<Vec<String>, Status> {
    let args = match env::args(rt) {
        Ok(args) => args,
        Err(error) if error.kind() == ErrorKind::OutOfMemory => return Err(Status::Memory),
        Err(_) => return Err(Status::Usage),
    };
    let mut words = Vec::new(rt.alloc());
    for word in args.skip(1) {
        if words.push(word).is_err() {
            return Err(Status::Memory);
        }
    }
    Ok(words)
}

// A file for each of those that the words name, FILE or the script first. No file is opened here.
fn files<'a>(
    rt: &'a HostRuntime,
    words: &'a [String],
) -> Result<Vec<FileSource<'a, HostRuntime>>, AllocError> {
    let mut files = Vec::new(rt.alloc());
    match feeds_of(words) {
        Some(found) => {
            if let Some(place) = found.script {
                if let Some(name) = words.get(place) {
                    push_file(rt, name.as_str(), &mut files)?;
                }
            }
            for word in &words[found.first..] {
                push_file(
                    rt,
                    file_in(word.as_str(), found.script.is_some()),
                    &mut files,
                )?;
            }
        }
        None => {
            if name_file(words) {
                if let Some(name) = words.last() {
                    push_file(rt, name.as_str(), &mut files)?;
                }
            }
        }
    }
    Ok(files)
}

// One file more.
fn push_file<'a>(
    rt: &'a HostRuntime,
    name: &'a str,
    files: &mut Vec<FileSource<'a, HostRuntime>>,
) -> Result<(), AllocError> {
    if files.push(FileSource::new(rt, name)).is_err() {
        return Err(AllocError);
    }
    Ok(())
}
