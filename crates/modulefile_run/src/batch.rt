//! Edits of one path variable, one after another, of which the later ones wait to be made as one edit.
ghost use Rattle.std.specs.Prelude.{◌≡◌, ◌++◌, [], true, false, map, string_bytes, unwrap_or, Some, None, Ok};
ghost use Rattle.std.specs.Prelude.{OnOk, OnErr, IfOk, IfErr, IfSome};
ghost use Rattle.envvars.specs.Texts.{Text, slice_texts};
ghost use Rattle.envvars.specs.Environment.{Environment};
ghost use Rattle.envvars.specs.Reasons.{Edits};
ghost use Rattle.envvars.specs.declared.fault.EnvFault.TheVariants.{OutOfMemory};
ghost use Rattle.envstate.specs.paths.PathVariables.{path_reason};
ghost use Rattle.modulefile.specs.Effects.{path_edited, edited};
ghost use Rattle.modulefile.specs.Judgments.{bad_edit, record_reason};
ghost use Rattle.modulefile.specs.RecordViews.{mode_view, record_view};
ghost use Rattle.modulefile_run.specs.Batches.{in_turn, waiting_in, with_waiting, CanWait};
ghost use Rattle.modulefile_run.specs.Batches.{HasRoomFor, MoreCanWait, NothingWaits, WaitAlike};
ghost use Rattle.std.specs.Option.{option_map};

use envstate::paths::{End, add_path, drop_path, has_room};
use envvars::fields::slices;
use envvars::{EnvFault, Vars};
use message::texts::copies;
use modulefile::{Delimiter, Mode, PathEdit, Record};
use std::alloc::{AllocError, Global};

/// How many elements wait at most. Counters go up to 4294967295, so there is room for as many nearly always.
const MOST_WAITING: u32 = 1_000_000;

/// An edit of a path variable, as a record asks for it in a mode.
#[derive(Clone, Copy)]
pub(crate) struct PathChange<'a> {
    pub edit: PathEdit,
    pub delim: Delimiter,
    pub var: &'a str,
    pub elements: &'a [String],
}

/// The path variable that was edited last, and the elements of later edits of the same kind that wait.
#[derive(Drop)]
pub(crate) struct PathBatch {
    pub edit: PathEdit,
    pub delim: Delimiter,
    pub var: String,
    /// The elements that wait, in the order in which they are put or dropped; none where no edit waits.
    pub waiting: Option<Vec<String>>,
}

/// What a record edits a path variable by in a mode, if it does.
pub(crate) fn path_change(mode: Mode, recorded: &Record) -> Option<PathChange<'_>>
    ensures edit { IfSome result (λ change. (owner : Text) (e : Environment)
        → edited (mode_view mode) owner (record_view recorded.now) e
        ≡ path_edited change.edit change.delim.character change.var.now (map string_bytes change.elements.now) e) }
    ensures reason { IfSome result (λ change. record_reason (record_view recorded.now) ≡ option_map bad_edit
        (path_reason change.var.now change.delim.character (map string_bytes change.elements.now))) }
{
    let Record::Path {
        edit,
        delim,
        var,
        elements,
    } = recorded
    else {
        return None;
    };
    let edit = match (mode, *edit) {
        (Mode::Load, edit) => edit,
        (Mode::Unload, PathEdit::Front) => PathEdit::Remove,
        (Mode::Unload, PathEdit::Back) => PathEdit::Remove,
        (Mode::Unload, PathEdit::Remove) | (Mode::Display | Mode::Whatis, _) => return None,
    };
    Some(PathChange {
        edit,
        delim: *delim,
        var: var.as_str(),
        elements: elements.as_slice(),
    })
}

/// The elements of edits in their order, as those of one edit; and the other way round.
fn take_turns<T>(edit: PathEdit, elements: &mut Vec<T>)
    ensures { elements.new.items ≡ in_turn edit elements.old.items }
{
    match edit {
        PathEdit::Front => elements.reverse(),
        PathEdit::Back | PathEdit::Remove => {}
    }
}

/// Edits a path variable.
fn edit_path<V: Vars>(
    alloc: Global,
    edit: PathEdit,
    delim: Delimiter,
    var: &str,
    elements: &[&str],
    env: &mut V,
) -> Result<(), EnvFault>
    ensures edits { Edits result (V.vars env.old) (V.vars env.new)
        (path_edited edit delim.character var.now (slice_texts elements.now) (V.vars env.old)) }
    ensures base { V.base env.new ≡ V.base env.old }
{
    let delim = delim.character;
    match edit {
        PathEdit::Front => add_path(alloc, env, var, delim, elements, End::Front),
        PathEdit::Back => add_path(alloc, env, var, delim, elements, End::Back),
        PathEdit::Remove => drop_path(alloc, env, var, delim, elements),
    }
}

/// Writes the elements that wait, if any do. They wait on.
pub(crate) fn write_waiting<V: Vars>(
    alloc: Global,
    last: &Option<PathBatch>,
    env: &mut V,
) -> Result<(), EnvFault>
    requires { CanWait last.now (V.vars env.old) }
    ensures ok { OnOk result (V.vars env.new ≡ with_waiting last.now (V.vars env.old)) }
    ensures err { OnErr result (V.vars env.new ≡ V.vars env.old) }
    ensures only { IfErr result (λ e. e ≡ OutOfMemory) }
    ensures base { V.base env.new ≡ V.base env.old }
{
    let Some(batch) = last else {
        return Ok(());
    };
    let Some(waiting) = &batch.waiting else {
        return Ok(());
    };
    let mut elements = slices(alloc, waiting.as_slice())?;
    take_turns(batch.edit, &mut elements);
    edit_path(
        alloc,
        batch.edit,
        batch.delim,
        batch.var.as_str(),
        elements.as_slice(),
        env,
    )
}

/// What is noted of an edit that is made at once: nothing waits.
pub(crate) fn batch_after(
    alloc: Global,
    change: Option<PathChange<'_>>,
) -> Result<Option<PathBatch>, AllocError>
    ensures { IfOk result (λ batch. NothingWaits batch) }
{
    match change {
        None => Ok(None),
        Some(change) => Ok(Some(PathBatch {
            edit: change.edit,
            delim: change.delim,
            var: String::from_str(alloc, change.var)?,
            waiting: None,
        })),
    }
}

/// Whether two edits are of one kind.
fn are_alike(one: PathEdit, other: PathEdit) -> bool
    ensures { result ≡ true → one ≡ other }
{
    match (one, other) {
        (PathEdit::Front, PathEdit::Front)
        | (PathEdit::Back, PathEdit::Back)
        | (PathEdit::Remove, PathEdit::Remove) => true,
        _ => false,
    }
}

impl PathBatch {
    /// Whether the edit is of this variable, with this delimiter, and of this kind.
    fn is_of(&self, change: &PathChange<'_>) -> bool
        ensures edit { result ≡ true → self.now.edit ≡ change.now.edit }
        ensures delim { result ≡ true → self.now.delim.character ≡ change.now.delim.character }
        ensures var { result ≡ true → string_bytes self.now.var ≡ change.now.var.now }
    {
        are_alike(self.edit, change.edit)
            && self.delim.character == change.delim.character
            && self.var.as_str() == change.var
    }

    /// Whether no counter can pass the largest, whatever elements wait.
    fn has_room<V: Vars>(&self, alloc: Global, env: &V) -> Result<bool, AllocError>
        ensures { IfOk result (λ b. b ≡ true
            → HasRoomFor self.now.edit self.now.delim.character (string_bytes self.now.var) (V.vars env.now)) }
    {
        match self.edit {
            PathEdit::Front | PathEdit::Back => has_room(
                alloc,
                env,
                self.var.as_str(),
                self.delim.character,
                MOST_WAITING,
            ),
            PathEdit::Remove => Ok(true),
        }
    }

    /// Whether so many elements more may wait.
    fn takes<V: Vars>(&self, alloc: Global, more: usize, env: &V) -> Result<bool, AllocError>
        requires { CanWait (Some self.now) (V.vars env.now) }
        ensures { IfOk result (λ b. b ≡ true → MoreCanWait self.now more (V.vars env.now)) }
    {
        let most = MOST_WAITING as usize;
        match &self.waiting {
            Some(waiting) => Ok(more <= most && waiting.len() <= most - more),
            None => Ok(more <= most && self.has_room(alloc, env)?),
        }
    }
    /// Lets the elements of a further edit wait.
    fn push(&mut self, alloc: Global, elements: &[String]) -> Result<(), AllocError>
        ensures edit { self.new.edit ≡ self.old.edit }
        ensures delim { self.new.delim.character ≡ self.old.delim.character }
        ensures var { string_bytes self.new.var ≡ string_bytes self.old.var }
        ensures ok { OnOk result (waiting_in self.new ≡ Some (unwrap_or (waiting_in self.old) []
            ++ in_turn self.old.edit (map string_bytes elements.now))) }
        ensures err { OnErr result (waiting_in self.new ≡ waiting_in self.old) }
    {
        let mut more = copies(alloc, elements)?;
        take_turns(self.edit, &mut more);
        match &mut self.waiting {
            Some(waiting) => waiting.append(&mut more),
            None => {
                self.waiting = Some(more);
                Ok(())
            }
        }
    }
}

/// Lets an edit wait, where it goes on with the last one and its elements have room. Else nothing changes.
pub(crate) fn waits<V: Vars>(
    alloc: Global,
    change: &PathChange<'_>,
    last: &mut Option<PathBatch>,
    env: &V,
) -> Result<bool, AllocError>
    requires last { CanWait last.old (V.vars env.now) }
    requires reason { path_reason change.now.var.now change.now.delim.character
        (map string_bytes change.now.elements.now) ≡ None }
    ensures waits { IfOk result (λ b. b ≡ true → CanWait last.new (V.vars env.now)
        × (path_edited change.now.edit change.now.delim.character change.now.var.now
        (map string_bytes change.now.elements.now) (with_waiting last.old (V.vars env.now))
        ≡ Ok (with_waiting last.new (V.vars env.now)))) }
    ensures not { IfOk result (λ b. b ≡ false → last.new ≡ last.old) }
    ensures err { OnErr result (WaitAlike last.old last.new (V.vars env.now)) }
{
    let Some(batch) = last else {
        return Ok(false);
    };
    if !batch.is_of(change) || !batch.takes(alloc, change.elements.len(), env)? {
        return Ok(false);
    }
    batch.push(alloc, change.elements)?;
    Ok(true)
}
