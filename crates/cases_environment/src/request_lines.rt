//! Requests, verdicts and dry runs over a tree in memory, with the number and the text of each refusal.

use crate::shown::{listed, shown};
use crate::texts::{bytes_of, first_word, meant, push_all, words};
use crate::variables::set_one;
use audit_dry_runs::{DryRun, dry_run_module};
use envstate::Env;
use filetree::MemoryTree;
use modules::rehearsals::rehearse;
use modules::{
    Action, Refusal, Request, STANDARD_LIMITS, Shell, Verdict, request, run_changes, verdict,
};
use std::alloc::{AllocError, Global};
use std::io;

/// What the lines share: files, and variables.
#[derive(Drop)]
struct Place {
    alloc: Global,
    tree: MemoryTree,
    env: Env,
}

/// The action without names of this kind; no words of a command line ask for it.
fn nameless(alloc: Global, kind: &str) -> Action {
    let names = Vec::new(alloc);
    match kind {
        "load" => Action::Load(names),
        "unload" => Action::Unload(names),
        "show" => Action::Show(names),
        _ => Action::Whatis(names),
    }
}

fn verdict_line(verdict: Verdict) -> &'static str {
    match verdict {
        Verdict::Plain => "Plain\n",
        Verdict::Asked => "Asked\n",
        Verdict::OneWay => "OneWay\n",
    }
}

/// What was found, and by which number and text a refusal is.
fn dry_run_line(alloc: Global, dry_run: &DryRun) -> Result<String, AllocError> {
    match dry_run {
        DryRun::Returns => String::from_str(alloc, "returns\n"),
        DryRun::Leaves(names) => {
            let mut text = String::from_str(alloc, "leaves")?;
            for name in names {
                push_all(&mut text, &[" ", name.as_str()])?;
            }
            text.push_str("\n")?;
            Ok(text)
        }
        DryRun::LoadRefused(refusal) => {
            format!(in alloc; "load !{} {refusal}\n", refusal.number())
        }
        DryRun::UnloadRefused(refusal) => {
            format!(in alloc; "unload !{} {refusal}\n", refusal.number())
        }
        DryRun::AlreadyLoaded => String::from_str(alloc, "already loaded\n"),
        DryRun::LoadsAnother { name, path } => format!(in alloc; "loads {name} {path}\n"),
    }
}

/// The request that words behind the name of a shell ask for.
fn request_in(alloc: Global, line: &str) -> Result<Request, Refusal> {
    let (name, rest) = first_word(line);
    let shell = Shell::named(name).unwrap_or(Shell::Sh);
    request(alloc, shell, &words(alloc, b'\\', rest)?)
}

/// What is printed for each request, which is none where it is refused.
fn shown_prints(alloc: Global, prints: &[Option<String>]) -> Result<String, AllocError> {
    let mut text = String::new(alloc);
    for print in prints {
        match print {
            Some(print) => push_all(&mut text, &["accepted\n", print.as_str()])?,
            None => text.push_str("none\n")?,
        }
    }
    Ok(text)
}

impl Place {
    /// Puts a modulefile of this text behind its cookie.
    fn put_module(&mut self, rest: &str) -> Result<String, AllocError> {
        let (path, text) = first_word(rest);
        let mut bytes = Vec::from_slice(self.alloc, b"#%Module\n")?;
        bytes.extend_from_slice(&bytes_of(self.alloc, b'\\', text)?)?;
        bytes.push(b'\n')?;
        self.tree.put_file(path, &bytes)?;
        Ok(String::new(self.alloc))
    }

    /// Puts a directory of these names.
    fn put_folder(&mut self, rest: &str) -> Result<String, AllocError> {
        let (path, rest) = first_word(rest);
        let mut names = Vec::new(self.alloc);
        for name in rest.split(' ') {
            names.push(name)?;
        }
        self.tree.put_directory(path, &names)?;
        Ok(String::new(self.alloc))
    }

    /// Has these variables alone.
    fn begin(&mut self, rest: &str) -> Result<String, Refusal> {
        self.env = Env::new(self.alloc);
        for word in &words(self.alloc, b'\\', rest)? {
            set_one(&mut self.env, word.as_str())?;
        }
        Ok(String::new(self.alloc))
    }

    /// What a request changes, and its report.
    fn run(&mut self, request: &Request) -> Result<String, Refusal> {
        let changed = run_changes(
            self.alloc,
            request,
            &self.env,
            &mut self.tree,
            STANDARD_LIMITS,
        )?;
        let changes = listed(self.alloc, changed.changes.as_slice())?;
        let report = changed.done.report.as_str();
        Ok(format!(in self.alloc; "{changes}\n{report}")?)
    }

    /// What requests print in turn, each in its shell, and the variables at the end.
    fn rehearse(&mut self, rest: &str) -> Result<String, Refusal> {
        let mut requests = Vec::new(self.alloc);
        for part in rest.split(',') {
            requests.push(request_in(self.alloc, part.trim())?)?;
        }
        let start = self.env.copy()?;
        let (end, prints) = rehearse(
            self.alloc,
            &requests,
            start,
            &mut self.tree,
            STANDARD_LIMITS,
        )?;
        let prints = shown_prints(self.alloc, &prints)?;
        let end = shown(self.alloc, &end)?;
        Ok(format!(in self.alloc; "{prints}end {end}\n")?)
    }

    fn ask_nameless(&mut self, kind: &str) -> Result<String, Refusal> {
        let asked = Request {
            shell: Shell::Sh,
            action: nameless(self.alloc, kind),
        };
        self.run(&asked)
    }

    fn judge(&mut self, rest: &str) -> Result<String, Refusal> {
        let name = meant(self.alloc, b'\\', rest)?;
        let judged = verdict(
            self.alloc,
            name.as_str(),
            &self.env,
            &mut self.tree,
            STANDARD_LIMITS,
        )?;
        Ok(String::from_str(self.alloc, verdict_line(judged))?)
    }

    /// What the load and the unload of a module do.
    fn try_one(&mut self, rest: &str) -> Result<String, Refusal> {
        let (name, path) = first_word(rest);
        let dry_run = dry_run_module(
            self.alloc,
            &self.env,
            &[],
            &mut self.tree,
            STANDARD_LIMITS,
            name,
            path,
        )?;
        Ok(dry_run_line(self.alloc, &dry_run)?)
    }

    fn variables(&self) -> Result<String, Refusal> {
        let variables = shown(self.alloc, &self.env)?;
        Ok(format!(in self.alloc; "{variables}\n")?)
    }

    /// The answer to a line.
    fn answer(&mut self, line: &str) -> Result<String, Refusal> {
        let (verb, rest) = first_word(line);
        match verb {
            "module" => Ok(self.put_module(rest)?),
            "folder" => Ok(self.put_folder(rest)?),
            "from" => self.begin(rest),
            "ask" => self.run(&request_in(self.alloc, rest)?),
            "rehearse" => self.rehearse(rest),
            "nameless" => self.ask_nameless(rest),
            "verdict" => self.judge(rest),
            "dry_run" => self.try_one(rest),
            _ => self.variables(),
        }
    }
}

/// Answers lines, each shown before its answer.
fn answer_lines(rt: &HostRuntime, place: &mut Place, lines: &[String]) -> io::Result<()> {
    for line in lines {
        match place.answer(line) {
            Ok(text) => print!(rt; "> {line}\n{text}")?,
            Err(refusal) => {
                let number = refusal.number();
                println!(rt; "> {line}\n!{number} {refusal}")?;
            }
        }
    }
    Ok(())
}

/// Answers lines over files and variables that they share.
pub(crate) fn answer(rt: &HostRuntime, lines: &[String]) -> io::Result<()> {
    let alloc = rt.alloc();
    let mut place = Place {
        alloc,
        tree: MemoryTree::new(alloc),
        env: Env::new(alloc),
    };
    answer_lines(rt, &mut place, lines)
}
