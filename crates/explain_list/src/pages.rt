//! The lines of the statement that is shown, and what each of them is.
ghost use Rattle.std.specs.Prelude.{◌≡◌, ◌≤◌, ◌<◌, ◌+◌, ◌∷◌, ◌++◌, ℕ, List, [], None, Some, true, false};
ghost use Rattle.std.specs.Prelude.{IfSome};
ghost use Rattle.std.specs.Prelude.{is_some, length, option_map, take};
ghost use Rattle.macro_statements.specs.Requests.{asked_in};
ghost use Rattle.vsm_model.specs.declared.limits.Settings.{Settings};
ghost use Rattle.script_steps.specs.Output.{Marked};
ghost use Rattle.script_steps.specs.Steps.{AsksStep, StepsOver, TakesStep};
ghost use Rattle.script_steps.specs.Taken.{Took};
ghost use Rattle.explain_faults.specs.Places.{first_card, further_cards, IsCaretOf, IsHeadPlace};
ghost use Rattle.explain_list.specs.Pages.{AreLinesOf, IsPage, IsPageAfter, TakesLast, TakesLine, line_of};
ghost use Rattle.explain_list.specs.Pages.{IsLineStart, fault_answered, fault_at, fault_in, fault_told, open_of};
ghost use Rattle.explain_list.specs.Pages.{KeepsLast, KeepsLine, KeepsRole, KeepsStep, Precedes, brought_for};
ghost use Rattle.explain_list.specs.Pages.{brought_told, ends_lost, shown_of};
ghost use Rattle.explain_list.specs.Groups.{brings, ends_by, is_lost};
ghost use Rattle.explain_list.specs.Rows.{IsLineAt, IsLineBefore, LacksMark};
ghost use Rattle.explain_faults.specs.Roles.{role_in};

use crate::options::other_option;
use explain_faults::carets::{Caret, own_caret};
use explain_faults::lines::{OpenLines, SourceLine};
use explain_faults::roles::{Brought, Role, role_of};
use explain_faults::stands::{LineStand, stand_of};
use macro_reader::Request;
use script_steps::{Ending, FaultKind, ReaderState, Response, Session, Step, TooLong};
use std::alloc::Global;
use vsm_model::Settings;

/// What a line with this answer brings.
fn answer_of(response: &Response) -> Brought
    ensures its { result ≡ brought_for response.now }
    ensures fault { fault_in result ≡ fault_answered response.now }
{
    match response {
        Response::Fault(kind) => Brought::Fault(*kind),
        Response::Replied(_)
        | Response::Refused(_)
        | Response::Kept(_)
        | Response::TooFar(_)
        | Response::TooFarAhead(_)
        | Response::Shown
        | Response::Map => Brought::Answer,
    }
}

/// What a line brings, by the answer to it.
fn brought_by(told: &Option<(u32, Response)>) -> Brought
    ensures its { result ≡ brought_told told.now }
    ensures fault { fault_in result ≡ fault_told told.now }
{
    match told {
        None => Brought::Nothing,
        Some((_, response)) => answer_of(response),
    }
}

/// Whether a line brings an answer.
fn brings(brought: Brought) -> bool
    ensures { result ≡ brings brought }
{
    match brought {
        Brought::Nothing => false,
        Brought::Answer | Brought::Fault(_) => true,
    }
}

/// What a line of a statement is, by its place among the statement's lines.
fn role_at(index: usize, count: usize, last: Role) -> Role
    ensures last { index + 1 ≡ count → result ≡ last }
    ensures other { index + 1 < count → is_lost (role_in result) ≡ false }
{
    if index.saturating_add(1) == count {
        last
    } else if index == 0 {
        Role::First
    } else {
        Role::Further
    }
}

/// Whether a line with this role isn't carried out.
fn is_lost(role: Role) -> bool
    ensures { result ≡ is_lost (role_in role) }
{
    match role {
        Role::Breaking | Role::Gone => true,
        Role::Aside | Role::First | Role::Further => false,
    }
}

/// Whether a line has the number after that of another.
fn is_next(before: &SourceLine, line: &SourceLine) -> bool
    ensures next { result ≡ true → before.now.number + 1 ≡ line.now.number }
    ensures found { before.now.number + 1 ≡ line.now.number → result ≡ true }
{
    before.number < line.number && line.number - before.number == 1
}

/// What follows the last line feed of a script, as a line after this many.
pub fn rest_line(lines: u32, script: &[u8], at: usize) -> SourceLine
    ensures number { lines ≤ 1048576 → result.number ≡ lines + 1 }
    ensures start { result.start ≡ at }
    ensures end { result.end ≡ length script.now }
{
    SourceLine {
        number: lines.saturating_add(1),
        start: at,
        end: script.len(),
    }
}

/// The place at which the statement of these lines is wrong, if it has this fault.
fn place_of(script: &[u8], lines: &OpenLines, kind: FaultKind) -> Option<(Caret, FaultKind)>
    ensures own { IfSome result (λ f. (kind ≡ f.1) × IsCaretOf (first_card script.now lines.now.lines.items)
        (further_cards script.now lines.now.lines.items) f.1 f.0) }
    ensures head { IfSome result (λ f. IsHeadPlace (first_card script.now lines.now.lines.items) f.1 f.0.place) }
    ensures on { IfSome result (λ f. 0 < length lines.now.lines.items
        → f.0.place.line < length lines.now.lines.items) }
    ensures lacks { result ≡ None → LacksMark script.now lines.now.lines.items (Some kind) }
{
    match own_caret(script, lines.as_slice(), kind) {
        Some(caret) => Some((caret, kind)),
        None => None,
    }
}

/// The place at which the statement of these lines is wrong, if it has a fault.
fn fault_of(script: &[u8], lines: &OpenLines, brought: Brought) -> Option<(Caret, FaultKind)>
    ensures own { IfSome result (λ f. (fault_in brought ≡ Some f.1) × IsCaretOf
        (first_card script.now lines.now.lines.items) (further_cards script.now lines.now.lines.items) f.1 f.0) }
    ensures head { IfSome result (λ f. IsHeadPlace (first_card script.now lines.now.lines.items) f.1 f.0.place) }
    ensures on { IfSome result (λ f. 0 < length lines.now.lines.items
        → f.0.place.line < length lines.now.lines.items) }
    ensures lacks { result ≡ None → LacksMark script.now lines.now.lines.items (fault_in brought) }
{
    match brought {
        Brought::Fault(kind) => place_of(script, lines, kind),
        Brought::Nothing => None,
        Brought::Answer => None,
    }
}

/// What a listing carries from line to line: the lines of the statement that is open, or those that are shown.
#[derive(Drop)]
pub struct ListingPage {
    lines: OpenLines,
    /// What the last of the lines is, if they are shown.
    last: Option<Role>,
    /// Where the statement that is shown is wrong.
    fault: Option<(Caret, FaultKind)>,
    /// The line that was taken last.
    current: Option<SourceLine>,
    /// The line before that.
    before: Option<SourceLine>,
    /// Whether a statement is among the lines so far.
    has_begun: bool,
    /// What the script runs under.
    settings: Settings,
    /// Gives memory for the text of a cause.
    alloc: Global,
}

impl ListingPage {
    /// No lines yet; memory for causes comes from here, and this is what the script runs under.
    pub fn new(alloc: Global, settings: Settings) -> ListingPage
        ensures lines { (script : List ℕ) → AreLinesOf script result }
        ensures open { open_of result ≡ [] }
        ensures current { result.current ≡ None }
    {
        ListingPage {
            lines: OpenLines::new(),
            last: None,
            fault: None,
            current: None,
            before: None,
            has_begun: false,
            settings,
            alloc,
        }
    }

    /// Gives memory for the text of a cause.
    pub fn alloc(&self) -> Global {
        self.alloc
    }

    /// Nothing is shown any longer. An open statement keeps its lines.
    fn hide(&mut self)
        ensures lines { (script : List ℕ) → AreLinesOf script self.old → AreLinesOf script self.new }
        ensures open { open_of self.new ≡ open_of self.old }
        ensures last { self.new.last ≡ None }
        ensures fault { self.new.fault ≡ None }
        ensures current { self.new.current ≡ self.old.current }
    {
        if self.last.is_some() {
            self.lines.clear();
        }
        self.last = None;
        self.fault = None;
    }

    /// Shows the lines so far, the last of which has this role and brings this.
    fn show(&mut self, script: &[u8], last: Role, brought: Brought)
        ensures page { AreLinesOf script.now self.old → IsPage script.now (fault_in brought) self.new }
        ensures lines { self.new.lines ≡ self.old.lines }
        ensures last { self.new.last ≡ Some last }
        ensures current { self.new.current ≡ self.old.current }
        ensures before { self.new.before ≡ self.old.before }
    {
        self.last = Some(last);
        self.fault = fault_of(script, &self.lines, brought);
    }

    /// Takes a line of this role, after those that aren't shown yet.
    fn keep(&mut self, line: SourceLine, role: Role)
        ensures lines { (script : List ℕ) → IsLineAt script line → AreLinesOf script self.old
            → AreLinesOf script self.new }
        ensures whole { length (open_of self.old) ≤ 9
            → self.new.lines.lines.items ≡ open_of self.old ++ line ∷ [] }
        ensures last { self.new.last ≡ None }
        ensures fault { self.new.fault ≡ None }
        ensures current { self.new.current ≡ Some line }
        ensures before { self.new.before ≡ self.old.current }
    {
        self.hide();
        self.lines.push(line);
        self.before = self.current;
        self.current = Some(line);
        self.has_begun = self.has_begun || role.is_of_statement();
    }

    /// Whether there is no room for another line.
    fn is_full(&self) -> bool
        ensures room { result ≡ false → length self.now.lines.lines.items ≤ 9 }
        ensures full { length self.now.lines.lines.items ≤ 9 → result ≡ false }
    {
        self.lines.as_slice().len() > 9
    }

    /// Whether the lines are shown after one of this role, which brings this.
    fn shows(&self, role: Role, brought: Brought) -> bool
        ensures room { result ≡ false → length self.now.lines.lines.items ≤ 9 }
        ensures ends { ends_by (role_in role) brought ≡ true → result ≡ true }
        ensures goes_on { length self.now.lines.lines.items ≤ 9 → ends_by (role_in role) brought ≡ false
            → result ≡ false }
    {
        match role {
            Role::Aside | Role::Gone => true,
            Role::First | Role::Further | Role::Breaking => brings(brought) || self.is_full(),
        }
    }

    /// Takes a line, and shows the statement that it answers; or itself, if it belongs to none. No statement has more
    /// than ten lines.
    fn take(&mut self, script: &[u8], line: SourceLine, role: Role, brought: Brought)
        ensures page { IsLineAt script.now line → AreLinesOf script.now self.old
            → IsPage script.now (fault_in brought) self.new }
        ensures whole { length (open_of self.old) ≤ 9
            → shown_of self.new ++ open_of self.new ≡ open_of self.old ++ line ∷ [] }
        ensures room { length (open_of self.new) ≤ 9 }
        ensures keeps { KeepsLine self.old self.new line role brought }
    {
        self.keep(line, role);
        if self.shows(role, brought) {
            self.show(script, role, brought);
        }
    }

    /// Takes a line that was taken, by the reader's state before and after it.
    fn take_step(
        &mut self,
        script: &[u8],
        number: u32,
        before: ReaderState,
        after: ReaderState,
        step: &Step,
    )
        ensures page { IsLineAt script.now (line_of number step.now) → AreLinesOf script.now self.old
            → IsPage script.now (fault_told step.now.told) self.new }
        ensures whole { length (open_of self.old) ≤ 9
            → shown_of self.new ++ open_of self.new ≡ open_of self.old ++ line_of number step.now ∷ [] }
        ensures room { length (open_of self.new) ≤ 9 }
        ensures keeps { KeepsRole self.old self.new (line_of number step.now) before after
            (brought_told step.now.told) }
    {
        let line = SourceLine {
            number,
            start: step.start,
            end: step.next.saturating_sub(1),
        };
        let brought = brought_by(&step.told);
        self.take(script, line, role_of(before, after, brought), brought);
    }

    /// The lines that are shown.
    pub fn lines(&self) -> &[SourceLine]
        ensures { result.now ≡ shown_of self.now }
    {
        match self.last {
            Some(_) => self.lines.as_slice(),
            None => &[],
        }
    }

    /// The last of these lines; this one if there is none.
    pub(crate) fn last_line(&self, line: SourceLine) -> SourceLine
        ensures { (script : List ℕ) → AreLinesOf script self.now → IsLineAt script line → IsLineAt script result }
    {
        match self.lines().last() {
            Some(last) => *last,
            None => line,
        }
    }

    /// What one of these lines is.
    pub(crate) fn role(&self, index: usize) -> Role
        ensures last { (last : Role) → self.now.last ≡ Some last → index + 1 ≡ length (shown_of self.now)
            → result ≡ last }
        ensures other { index + 1 < length (shown_of self.now) → is_lost (role_in result) ≡ false }
    {
        match self.last {
            Some(last) => role_at(index, self.lines.as_slice().len(), last),
            None => Role::Aside,
        }
    }

    /// Where this line asks for other options than the settings, if no statement is before it.
    fn options_on(&self, script: &[u8], line: &SourceLine) -> Option<usize> {
        if self.has_begun {
            None
        } else {
            other_option(line.bytes(script), &self.settings)
        }
    }

    /// What one of these lines is, and what is before and after it.
    pub fn stand(&self, script: &[u8], line: &SourceLine, index: usize) -> LineStand {
        let options = self.options_on(script, line);
        stand_of(script, self.lines(), index, self.role(index), options)
    }

    /// Why this one of the lines isn't carried out, if it isn't: the line before it.
    pub fn lost(&self, index: usize, line: &SourceLine) -> Option<SourceLine>
        ensures line { (script : List ℕ) → AreLinesOf script self.now
            → IfSome result (IsLineBefore script line.now) }
        ensures last { index + 1 ≡ length (shown_of self.now) → Precedes self.now line.now
            → is_some result ≡ ends_lost self.now.last }
        ensures other { index + 1 < length (shown_of self.now) → is_some result ≡ false }
    {
        if is_lost(self.role(index)) {
            self.line_before(line)
        } else {
            None
        }
    }

    /// The fault whose caret is on this one of the lines.
    pub fn fault_on(&self, index: usize) -> Option<(&Caret, FaultKind)>
        ensures { option_map (λ f. (f.0.now, f.1)) result ≡ fault_at self.now.fault index }
    {
        match &self.fault {
            None => None,
            Some((caret, kind)) => {
                if caret.place.line == index {
                    Some((caret, *kind))
                } else {
                    None
                }
            }
        }
    }

    /// The line before this one, which was taken last.
    fn line_before(&self, line: &SourceLine) -> Option<SourceLine>
        ensures line { (script : List ℕ) → AreLinesOf script self.now
            → IfSome result (IsLineBefore script line.now) }
        ensures found { (before : SourceLine) → self.now.before ≡ Some before
            → before.number + 1 ≡ line.now.number → is_some result ≡ true }
    {
        match self.before {
            Some(before) if is_next(&before, line) => Some(before),
            _ => None,
        }
    }

    /// Takes a last line without a line feed.
    pub fn take_last(
        &mut self,
        script: &[u8],
        line: SourceLine,
        before: ReaderState,
        ending: &Ending,
    )
        ensures page { IsLineAt script.now line → AreLinesOf script.now self.old
            → IsPage script.now (fault_told ending.now.last) self.new }
        ensures whole { length (open_of self.old) ≤ 9 → TakesLast script.now line self.old self.new }
        ensures keeps { KeepsLast script.now line before self.old self.new ending.now }
    {
        if line.start >= script.len() {
            self.hide();
            return;
        }
        let after = if ending.open_statement.is_some() {
            ReaderState::Gathering
        } else {
            ReaderState::Awaiting
        };
        let brought = brought_by(&ending.last);
        self.take(script, line, role_of(before, after, brought), brought);
    }

    /// Shows the statement that is open at the end: the lines that aren't shown yet.
    pub fn show_open(&mut self, script: &[u8], ending: &Ending)
        ensures page { AreLinesOf script.now self.old
            → IsPage script.now (fault_told ending.now.open_statement) self.new }
        ensures whole { shown_of self.new ≡ open_of self.old }
        ensures carried { ends_lost self.new.last ≡ false }
    {
        self.hide();
        if !self.lines.as_slice().is_empty() {
            let last = if self.lines.as_slice().len() > 1 {
                Role::Further
            } else {
                Role::First
            };
            self.show(script, last, brought_by(&ending.open_statement));
        }
    }

    /// Takes the line that begins at a place of the script, as `Session::take_line_into` does, and shows what it
    /// answers.
    pub fn take_line(
        &mut self,
        session: &mut Session,
        script: &[u8],
        at: usize,
        request: &mut Request,
    ) -> Result<Option<Step>, TooLong>
        requires { at ≤ length script.now }
        ensures takes { (settings : Settings) (answers : List Marked)
            → Took settings (take at script.now) answers session.old
            → TakesStep settings script.now at answers session.new result }
        ensures asks { (settings : Settings) (answers : List Marked)
            → Took settings (take at script.now) answers session.old
            → AsksStep settings script.now answers session.new result (asked_in request.new) }
        ensures place { StepsOver script.now at result }
        ensures page { (settings : Settings) (answers : List Marked)
            → Took settings (take at script.now) answers session.old → IsLineStart script.now at
            → AreLinesOf script.now self.old → IsPageAfter script.now result self.new }
        ensures whole { TakesLine self.old self.new result }
        ensures keeps { KeepsStep session.old session.new self.old self.new result }
    {
        let before = session.stand();
        let number = session.lines().saturating_add(1);
        match session.take_line_into(script, at, request) {
            Err(fault) => Err(fault),
            Ok(None) => Ok(None),
            Ok(Some(step)) => {
                self.take_step(script, number, before, session.stand(), &step);
                Ok(Some(step))
            }
        }
    }
}
