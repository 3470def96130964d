//! The reading of a file: each command once, wherever a script can begin.
ghost use Rattle.std.specs.Prelude.{IsSome, OnOk};
ghost use Rattle.port_rewriting.specs.LookingInto.{IsLookedInto};

use crate::aliases::ShellScript;
use crate::pieces::PieceFindings;
use crate::rewrite::Rewrite;
use crate::scopes::{Given, Scope};
use port_constants::{Edit, Knowledge, computed_in, copied, plain_name};
use port_reading::places::{ConstantWord, constant, first_line, places_of_words, words_of};
use port_reading::roles::{Role, roles_of};
use std::alloc::{AllocError, Global};
use std::mem::replace;
use tcltext::chars::TextFault;
use tcltext::expr::{Expr, Operand, parse_expr_pieces};
use tcltext::list::parse_list;
use tcltext::script::{ByteRange, Command, Part, Script, WordContent, parse_pieces};

/// The most scripts and expressions that are read in a command of a file.
const MOST_BODIES: usize = 1_000_000;

/// Variables that Tcl has, and this evaluator hasn't.
const FOREIGN_VARIABLES: &str =
    "argc argv argv0 auto_path errorCode errorInfo tcl_interactive tcl_library \
     tcl_patchLevel tcl_pkgPath tcl_platform tcl_precision tcl_rcFileName tcl_version";

/// A family that a file names.
#[derive(Debug, Drop)]
pub struct NamedFamily {
    /// Its name, where that is known.
    pub name: Option<String>,
    /// Whether each load of the file comes to that.
    pub is_sure: bool,
}

/// A reading of a file.
#[derive(Drop)]
pub(crate) struct Reader<'f> {
    pub(crate) alloc: Global,
    pub(crate) given: Given<'f>,
    /// The text of the file.
    pub(crate) text: &'f str,
    /// The names of its procedures.
    pub(crate) procedures: Vec<&'f str>,
    /// The scripts of its aliases.
    pub(crate) scripts: Vec<ShellScript>,
    /// The families that it names.
    pub(crate) families: Vec<NamedFamily>,
    /// Whether nothing was changed or asked so far that a load of another module could see.
    pub(crate) is_quiet: bool,
    /// Whether each command so far is evaluated in each load.
    pub(crate) is_straight: bool,
    /// Whether a directory was added that modules are searched in.
    pub(crate) has_search: bool,
    /// Whether the file is in conflict with its own name in each load.
    pub(crate) has_conflict: bool,
    /// What is known of variables.
    known: Knowledge<'f>,
    /// What is still to be read of the command at hand.
    queue: Vec<Scope<'f>>,
    /// What was found in the command at hand.
    piece: PieceFindings,
}

/// Commands that answer, and do nothing else.
const PURE: &str =
    "list llength lindex lrange split join concat string getenv is-loaded module-info expr";

/// Whether a command of these words answers, and does nothing else.
fn is_pure(words: &[Option<&str>]) -> bool {
    match words {
        [Some("info"), second, ..] => *second == Some("exists"),
        [Some(name), ..] => PURE.split(' ').any(|pure| pure == *name),
        _ => false,
    }
}

/// Whether a command looks at what another module may change.
fn asks(words: &[Option<&str>]) -> bool {
    match words {
        [Some("getenv" | "is-loaded"), ..] => true,
        [Some("info"), Some("exists"), Some(name)] => name.contains("env"),
        [Some("info"), Some("exists"), ..] => true,
        _ => false,
    }
}

/// Whether a command is evaluated in each load, and changes nothing that another module could see.
fn is_still(name: &str) -> bool {
    matches!(
        name,
        "set" | "conflict" | "prereq" | "module-whatis" | "puts" | "proc"
    )
}

/// Whether a file may end in a command of this name, or in what it evaluates.
fn may_end(name: &str) -> bool {
    matches!(
        name,
        "return" | "exit" | "error" | "break" | "continue" | "eval" | "source" | "uplevel" | "throw"
    )
}

/// Whether the number has a fraction or an exponent.
fn is_fraction(number: &str) -> bool {
    let is_hexadecimal = number.contains('x') || number.contains('X');
    number.contains('.') || !is_hexadecimal && (number.contains('e') || number.contains('E'))
}

/// Whether a place begins at a byte, or goes over it.
fn has_inside(place: ByteRange, at: usize) -> bool {
    place.start <= at && at < place.end
}

/// Whether parts are texts and scripts in brackets alone.
fn are_spelled(parts: &[Part<ByteRange>]) -> bool {
    parts
        .iter()
        .all(|part| matches!(part, Part::Literal(_) | Part::Bracket(_)))
}

/// Whether a procedure is called by no load.
fn is_for_reports(name: &str) -> bool {
    matches!(name, "ModulesHelp" | "ModulesDisplay" | "ModulesTest")
}

/// The constant words of a script.
fn constants_of<'t>(
    alloc: Global,
    text: &'t str,
    script: &Script<ByteRange>,
) -> Result<Vec<ConstantWord<'t>>, AllocError> {
    let words = script
        .commands
        .iter()
        .flat_map(|command| command.words.iter());
    words.filter_map(|word| constant(text, word)).collect(alloc)
}

/// Whether the values of words are these elements.
fn are_elements(words: &[ConstantWord], elements: &[String]) -> bool {
    let values = words.iter().map(|word| word.value);
    values.eq(elements.iter().map(|element| element.as_str()))
}

impl<'f> Reader<'f> {
    /// One that is to read a file of this text, which is still to be begun.
    pub(crate) fn new(alloc: Global, given: Given<'f>, text: &'f str) -> Reader<'f> {
        Reader {
            alloc,
            given,
            text,
            procedures: Vec::new(alloc),
            scripts: Vec::new(alloc),
            families: Vec::new(alloc),
            is_quiet: true,
            is_straight: true,
            has_search: false,
            has_conflict: false,
            known: Knowledge::new(alloc, given.host, given.file),
            queue: Vec::new(alloc),
            piece: PieceFindings::none(alloc),
        }
    }

    /// Notes the procedures that the commands of the file define.
    pub(crate) fn find_procedures(&mut self, script: &Script<ByteRange>) -> Result<(), AllocError> {
        for command in &script.commands {
            let words = words_of(self.alloc, self.text, command)?;
            if let [Some("proc"), Some(name), ..] = words.as_slice() {
                self.procedures.push(*name)?;
            }
        }
        Ok(())
    }

    /// Reads a command of the file, and gives what was found in it.
    pub(crate) fn read(
        &mut self,
        command: &Command<ByteRange>,
    ) -> Result<PieceFindings, AllocError> {
        let values = self.values_of(command)?;
        let words: Vec<_> = values
            .iter()
            .map(|value| value.as_deref())
            .collect(self.alloc)?;
        self.has_conflict = self.has_conflict
            || self.is_straight && self.is_own_conflict(words.as_slice());
        self.piece.computed = computed_in(self.alloc, &self.known, self.text, command)?;
        self.command(Scope::of_file(self.text), command, words.as_slice())?;
        self.read_bodies()?;
        self.learn(words.as_slice())?;
        let next = PieceFindings::none(self.alloc);
        Ok(replace(&mut self.piece, next))
    }

    /// Whether a command of these words is the conflict of the file with its own name.
    fn is_own_conflict(&self, words: &[Option<&str>]) -> bool {
        match words {
            [Some("conflict"), names @ ..] => names
                .iter()
                .any(|name| *name == self.given.one_version),
            _ => false,
        }
    }

    /// The values of the words of a command of the file, as far as they are known; its name has to be constant, and a
    /// condition with brackets is as it is spelled.
    fn values_of(&self, command: &Command<ByteRange>) -> Result<Vec<Option<String>>, AllocError> {
        let mut values = Vec::new(self.alloc);
        let [name, others @ ..] = command.words.as_slice() else {
            return Ok(values);
        };
        let name = constant(self.text, name).map(|name| name.value);
        values.push(copied(self.alloc, name)?)?;
        for word in others {
            values.push(self.known.value_of_word(self.alloc, self.text, word)?)?;
        }
        if name == Some("if") {
            if let (Some(text), Some(value)) = (
                self.spelled_condition(command)?,
                values.get_mut(1),
            ) {
                *value = Some(text);
            }
        }
        Ok(values)
    }

    /// The text of the condition of an `if` that is spelled without braces and quotes, with scripts in brackets.
    fn spelled_condition(
        &self,
        command: &Command<ByteRange>,
    ) -> Result<Option<String>, AllocError> {
        let places = places_of_words(self.alloc, self.text, command)?;
        let place = places.as_ref().and_then(|places| places.get(1));
        let (Some(place), [_, word, ..]) = (place, command.words.as_slice()) else {
            return Ok(None);
        };
        let spelled = place.of(self.text);
        match &word.content {
            WordContent::Parts(parts) if !word.expands && are_spelled(parts.as_slice()) => {
                copied(
                    self.alloc,
                    Some(spelled).filter(|text| !text.starts_with('"')),
                )
            }
            _ => Ok(None),
        }
    }

    /// Reads the bodies and expressions that are still to be read.
    fn read_bodies(&mut self) -> Result<(), AllocError> {
        for _ in 0..MOST_BODIES {
            let Some(scope) = self.queue.pop() else {
                return Ok(());
            };
            match scope.role {
                Role::Expression => self.expression_text(scope)?,
                Role::Patterns => self.patterns(scope)?,
                _ => self.body(scope)?,
            }
        }
        self.leave(0, first_line(self.text, 0))
    }

    /// Notes that something at a place isn't read here, by what is said of it.
    fn leave(&mut self, place: usize, said: &str) -> Result<(), AllocError>
        ensures { OnOk result (IsSome self.new.piece.left) }
    {
        let said = String::from_str(self.alloc, said)?;
        self.piece.leave(place, said);
        Ok(())
    }

    /// Notes that a script or an expression can't be read.
    fn leave_text(&mut self, scope: Scope<'f>) -> Result<(), AllocError> {
        self.piece.does_more = true;
        self.leave(scope.base, first_line(scope.text, 0))
    }

    /// Notes that a command can't be read.
    fn leave_command(
        &mut self,
        scope: Scope<'f>,
        command: &Command<ByteRange>,
    ) -> Result<(), AllocError>
        ensures { OnOk result (IsSome self.new.piece.left) }
    {
        self.piece.does_more = true;
        let start = command.source.start;
        self.leave(scope.place(start), first_line(scope.text, start))
    }

    /// Reads a body.
    fn body(&mut self, scope: Scope<'f>) -> Result<(), AllocError> {
        match parse_pieces(self.alloc, &scope.text) {
            Ok(script) => self.script(scope, &script),
            Err(TextFault::OutOfMemory) => Err(AllocError),
            Err(_) => self.leave_text(scope),
        }
    }

    /// The words of a list of patterns, which is read as a script has its words; none where these aren't its elements.
    fn pattern_words(&self, scope: Scope<'f>) -> Result<Option<Vec<ConstantWord<'f>>>, TextFault> {
        let script = parse_pieces(self.alloc, &scope.text)?;
        let elements = parse_list(self.alloc, scope.text)?;
        match constants_of(self.alloc, scope.text, &script) {
            Ok(words) if are_elements(words.as_slice(), elements.as_slice()) => Ok(Some(words)),
            Ok(_) => Ok(None),
            Err(_) => Err(TextFault::OutOfMemory),
        }
    }

    /// Has the bodies in a list of patterns read later.
    fn patterns(&mut self, scope: Scope<'f>) -> Result<(), AllocError> {
        let words = match self.pattern_words(scope) {
            Ok(Some(words)) => words,
            Err(TextFault::OutOfMemory) => return Err(AllocError),
            _ => return self.leave_text(scope),
        };
        let mut is_body = false;
        for word in &words {
            if is_body && word.value != "-" {
                let role = Role::Body;
                self.queue.push(scope.inner(word.value, word.start, role))?;
            }
            is_body = !is_body;
        }
        Ok(())
    }

    /// Reads the commands of a script.
    #[cycle(reads)]
    fn script(&mut self, scope: Scope<'f>, script: &Script<ByteRange>) -> Result<(), AllocError> {
        for command in &script.commands {
            let words = words_of(self.alloc, scope.text, command)?;
            self.command(scope, command, words.as_slice())?;
        }
        Ok(())
    }

    /// Reads a command, whose words are these where they are known.
    #[cycle(reads)]
    fn command(
        &mut self,
        scope: Scope<'f>,
        command: &Command<ByteRange>,
        words: &[Option<&str>],
    ) -> Result<(), AllocError> {
        if !self.judge(scope, command, words)? {
            return Ok(());
        }
        for word in &command.words {
            match &word.content {
                WordContent::Parts(parts) => self.parts(scope, parts.as_slice())?,
                WordContent::Bare(_) | WordContent::Braced(_) => {}
            }
        }
        Ok(())
    }

    /// Judges a command by its words, and notes what is written for it; false where nothing in it is still to be read.
    fn judge(
        &mut self,
        scope: Scope<'f>,
        command: &Command<ByteRange>,
        words: &[Option<&str>],
    ) -> Result<bool, AllocError> {
        let name = match words {
            [Some(name), ..] if !name.starts_with("::") => *name,
            _ => {
                self.piece.may_end = true;
                self.leave_command(scope, command)?;
                return Ok(false);
            }
        };
        let is_procedure = self.procedures.iter().any(|other| *other == name);
        self.piece.may_end = self.piece.may_end || may_end(name) || is_procedure;
        self.piece.does_more = self.piece.does_more || scope.is_bracket && !is_pure(words);
        self.piece.asks = self.piece.asks || asks(words);
        self.note_family(scope, words)?;
        if let [Some("proc"), Some(procedure), ..] = words {
            self.known.define(procedure);
        }
        let expands = command.words.iter().any(|word| word.expands);
        let rewrite = self.classify(scope, name, words, expands)?;
        if !self.write(scope, command, &rewrite)? {
            return Ok(false);
        }
        self.bodies(scope, command, words)?;
        Ok(true)
    }

    /// Notes a family that a command names.
    fn note_family(&mut self, scope: Scope<'f>, words: &[Option<&str>]) -> Result<(), AllocError> {
        if let [Some("family"), names @ ..] = words {
            let name = match names {
                [name] => copied(self.alloc, *name)?,
                _ => None,
            };
            let is_sure = scope.is_top && self.is_straight;
            self.families.push(NamedFamily { name, is_sure })?;
        }
        Ok(())
    }

    /// Puts what is written for a command in its place; false where it can't be written.
    fn put(
        &mut self,
        scope: Scope<'f>,
        command: &Command<ByteRange>,
        rewrite: &Rewrite,
    ) -> Result<bool, AllocError> {
        let edits = match places_of_words(self.alloc, scope.text, command)? {
            Some(places) => rewrite.edits(self.alloc, places.as_slice())?,
            None => None,
        };
        let Some(edits) = edits else {
            self.leave_command(scope, command)?;
            return Ok(false);
        };
        for edit in edits {
            let Edit { place, text } = edit;
            let place = scope.range(place);
            // What Tcl computes in it is written anew with it.
            let computed = &mut self.piece.computed;
            computed.retain(|it| !has_inside(place, it.place.start));
            self.piece.edits.push(Edit { place, text })?;
        }
        let outcome = rewrite.outcome(self.alloc)?;
        self.piece.rewrite(outcome);
        Ok(true)
    }

    /// Writes a command as it is classified; false where nothing in it is still to be read.
    fn write(
        &mut self,
        scope: Scope<'f>,
        command: &Command<ByteRange>,
        rewrite: &Rewrite,
    ) -> Result<bool, AllocError> {
        match rewrite {
            Rewrite::Keep => Ok(true),
            Rewrite::Left(said) => {
                self.piece.does_more = true;
                self.leave(scope.place(command.source.start), said.as_str())?;
                Ok(false)
            }
            Rewrite::Commands(_, searches, _) => {
                if self.put(scope, command, rewrite)? {
                    self.piece.is_replaced = scope.is_top;
                    self.has_search = self.has_search || *searches;
                }
                Ok(false)
            }
            Rewrite::Words(_) | Rewrite::WithoutOption(_) => self.put(scope, command, rewrite),
        }
    }

    /// Has a word of a command read later that is a script or an expression.
    #[tactic(auto, using(crate::proofs::LookingInto::looked))]
    fn later(
        &mut self,
        scope: Scope<'f>,
        command: &Command<ByteRange>,
        role: Role,
        word: Option<ConstantWord<'f>>,
    ) -> Result<(), AllocError>
        ensures { OnOk result
            (IsLookedInto role word.entry self.old.queue.items self.new.queue.items self.new.piece.left) }
    {
        match (role, word) {
            (Role::Value, _) | (Role::Expression, None) => Ok(()),
            (_, None) => self.leave_command(scope, command),
            (_, Some(word)) => {
                self.queue.push(scope.inner(word.value, word.start, role))?;
                Ok(())
            }
        }
    }

    /// Has the scripts and expressions among the words of a command read later.
    fn bodies(
        &mut self,
        scope: Scope<'f>,
        command: &Command<ByteRange>,
        words: &[Option<&str>],
    ) -> Result<(), AllocError> {
        match words {
            [Some("proc"), Some(name), ..] if is_for_reports(name) => return Ok(()),
            _ => {}
        }
        let roles = roles_of(self.alloc, words)?;
        let is_joined = words.len() > 2 && words.first() == Some(&Some("expr"));
        for (word, role) in command.words.iter().zip(roles.iter()) {
            let word = constant(scope.text, word);
            let is_operator = is_joined && word.is_some_and(|word| !word.value.contains('['));
            if !is_operator {
                self.later(scope, command, *role, word)?;
            }
        }
        Ok(())
    }

    /// Reads what is in parts of a word, but for the scripts in brackets in whose place a text is put.
    #[cycle(reads)]
    fn parts(&mut self, scope: Scope<'f>, parts: &[Part<ByteRange>]) -> Result<(), AllocError> {
        for part in parts {
            match part {
                Part::Literal(_) | Part::Backslash(_) => {}
                Part::Variable(name) => self.variable(scope, *name)?,
                Part::Indexed(name, index) => {
                    self.variable(scope, *name)?;
                    self.parts(scope, index.as_slice())?;
                }
                Part::Bracket(script) if self.is_computed_script(scope, script) => {}
                Part::Bracket(script) => self.script(scope.bracket(), script)?,
            }
        }
        Ok(())
    }

    /// Whether a text is put in place of what stands there.
    fn is_computed(&self, scope: Scope, start: usize) -> bool {
        let at = scope.place(start);
        let mut edits = self.piece.computed.iter().chain(self.piece.edits.iter());
        edits.any(|it| has_inside(it.place, at))
    }

    /// Whether a text is put in place of a script in brackets.
    fn is_computed_script(&self, scope: Scope, script: &Script<ByteRange>) -> bool {
        let first = script.commands.as_slice().first();
        first.is_some_and(|command| self.is_computed(scope, command.source.start))
    }

    /// Reads a variable.
    fn variable(&mut self, scope: Scope<'f>, name: ByteRange) -> Result<(), AllocError> {
        let word = plain_name(name.of(scope.text));
        self.piece.asks = self.piece.asks || word == "env";
        let is_foreign = FOREIGN_VARIABLES.split(' ').any(|other| other == word);
        if is_foreign && !self.is_computed(scope, name.start) {
            self.leave(scope.place(name.start), word)?;
        }
        Ok(())
    }

    /// Reads an expression that is a text.
    fn expression_text(&mut self, scope: Scope<'f>) -> Result<(), AllocError> {
        match parse_expr_pieces(self.alloc, &scope.text) {
            Ok(expression) => self.expression(scope, &expression),
            Err(TextFault::OutOfMemory) => Err(AllocError),
            Err(_) => self.leave_text(scope),
        }
    }

    /// Reads an expression.
    fn expression(
        &mut self,
        scope: Scope<'f>,
        expression: &Expr<ByteRange>,
    ) -> Result<(), AllocError> {
        match expression {
            Expr::Operand(operand) => self.operand(scope, operand),
            Expr::Unary(_, inner) => self.expression(scope, inner),
            Expr::Binary(_, left, right) | Expr::And(left, right) | Expr::Or(left, right) => {
                self.expression(scope, left)?;
                self.expression(scope, right)
            }
            Expr::Choice(condition, left, right) => {
                self.expression(scope, condition)?;
                self.expression(scope, left)?;
                self.expression(scope, right)
            }
        }
    }

    /// Reads an operand.
    fn operand(
        &mut self,
        scope: Scope<'f>,
        operand: &Operand<ByteRange>,
    ) -> Result<(), AllocError> {
        match operand {
            Operand::Number(number) if is_fraction(number.of(scope.text)) => {
                self.leave(scope.place(number.start), number.of(scope.text))
            }
            Operand::Number(_) | Operand::Word(_) | Operand::Braced(_) => Ok(()),
            Operand::Variable(name) => self.variable(scope, *name),
            Operand::Indexed(name, index) => {
                self.variable(scope, *name)?;
                self.parts(scope, index.as_slice())
            }
            Operand::Bracket(script) => self.script(scope.bracket(), script),
            Operand::Quoted(parts) => self.parts(scope, parts.as_slice()),
        }
    }

    /// Notes what is known behind a command of the file.
    fn learn(&mut self, words: &[Option<&str>]) -> Result<(), AllocError> {
        if self.piece.is_replaced {
            if let [Some("family" | "set-alias"), ..] = words {
                self.known.forget_environment();
                self.is_quiet = false;
            }
            return Ok(());
        }
        let name = words.first().copied().flatten().unwrap_or("");
        let is_alone = !self.piece.does_more;
        self.is_quiet = self.is_quiet && is_still(name) && is_alone && !self.piece.asks;
        self.is_straight = self.is_straight && !self.piece.may_end;
        if is_alone {
            self.learn_words(words)
        } else {
            self.known.forget();
            Ok(())
        }
    }

    /// Notes what is known of variables behind a command of these words.
    fn learn_words(&mut self, words: &[Option<&str>]) -> Result<(), AllocError> {
        let alloc = self.alloc;
        match words {
            [Some("set"), Some(name), value] => {
                let value = copied(alloc, *value)?;
                self.known.set(alloc, name, value)
            }
            [Some("setenv"), Some(name), Some(value)] => {
                let value = String::from_str(alloc, value)?;
                self.known.set_environment(alloc, name, Some(value))
            }
            [Some("setenv" | "pushenv" | "unsetenv"), Some(name), ..]
            | [
                Some("prepend-path" | "append-path" | "remove-path"),
                Some(name),
                ..
            ] if !name.starts_with('-') => { self.known.set_environment(alloc, name, None) }
            [Some("setenv" | "pushenv" | "unsetenv"), ..]
            | [Some("prepend-path" | "append-path" | "remove-path"), ..] => {
                self.known.forget_environment();
                Ok(())
            }
            [
                Some("conflict" | "prereq" | "module-whatis" | "puts" | "proc"),
                ..
            ] => Ok(()),
            _ => {
                self.known.forget();
                Ok(())
            }
        }
    }
}
