ghost use Rattle.std.specs.Prelude.{◌≡◌, ◌≢◌, ◌&&◌, ℕ, Bool, false, List, [], ◌∷◌, Some, None, Err, is_some, IfOk, IfSome, OnOk, OnErr, IsErrOf, IsTrue};
ghost use Rattle.std.specs.Str.{bytes_eq};
ghost use Rattle.peg_text.specs.Lists.{GoesOnFrom};
ghost use Rattle.peg_text.specs.Pairs.{key_of};
ghost use Rattle.gimv_base.specs.Answers.{Ends, GoesOn, GoesOnWith, IsBadAt, IsNotBad, Takes};
ghost use Rattle.gimv_base.specs.Parts.{Part};
ghost use Rattle.gimv_base.specs.Standings.{Standing, among_groups, goes_on, open_key, rest_of, yet};

use crate::role::{Role, RoleFault};
use peg_text::split_pair;
use std::alloc::Global;
use std::marker::Model;

/// What a role of groups does with one group.
///
/// A refusal may leave a part of its text behind `out`, which the caller takes away.
pub trait Grouping {
    /// What is kept of a group that has begun.
    type State: Drop;

    /// What is written for a whole group, and its first bad record.
    ghost part: { Self → List (List ℕ) → Part };

    /// What the further records of a group that has begun give.
    ghost further: { Self → Self.State → List (List ℕ) → Part };

    /// What each state keeps.
    ghost fits: { Self → Self.State → Bool };

    /// Takes the first record of a group.
    fn begin(&self, alloc: Global, text: &[u8], out: &mut Vec<u8>) -> Result<Self::State, RoleFault>
        ensures ok { IfOk result (λ state. Takes (part self.now) (further self.now state) text.now out.old.items out.new.items) }
        ensures fits { IfOk result (λ state. IsTrue (fits self.now state)) }
        ensures bad { IsErrOf result RoleFault.Bad → IsBadAt 1 (part self.now) text.now }
        ensures never_before { ¬ IsErrOf result RoleFault.BadBefore }
        ensures kept { GoesOnFrom out.old.items out.new.items };

    /// Takes a further record of the group.
    fn go_on(
        &self,
        alloc: Global,
        state: &mut Self::State,
        text: &[u8],
        out: &mut Vec<u8>,
    ) -> Result<(), RoleFault>
        requires { IsTrue (fits self.now state.old) }
        ensures ok { OnOk result (Takes (further self.now state.old) (further self.now state.new) text.now out.old.items out.new.items) }
        ensures fits { IsTrue (fits self.now state.new) }
        ensures bad { IsErrOf result RoleFault.Bad → IsBadAt 1 (further self.now state.old) text.now }
        ensures never_before { ¬ IsErrOf result RoleFault.BadBefore }
        ensures kept { GoesOnFrom out.old.items out.new.items };

    /// Ends the group.
    fn close(&self, alloc: Global, state: &Self::State, out: &mut Vec<u8>) -> Result<(), RoleFault>
        requires { IsTrue (fits self.now state.now) }
        ensures ok { OnOk result (Ends (further self.now state.now []) out.old.items out.new.items) }
        ensures bad_before { IsErrOf result RoleFault.BadBefore → (further self.now state.now []).bad ≡ Some 0 }
        ensures never_bad { ¬ IsErrOf result RoleFault.Bad }
        ensures kept { GoesOnFrom out.old.items out.new.items };

    /// Where a further record comes, the one before it isn't bad.
    ghost blames_the_end: { (rule : Self) (state : Self.State) (record' : List ℕ) (records : List (List ℕ)) → (further rule state (record' ∷ records)).bad ≢ Some 0 };
}

/// A role that goes group by group: a longest run of records with the same key. Contracts see its parts.
#[derive(Drop)]
pub struct Grouped<F: Grouping + Drop> {
    form: F,
    /// The key of the group that has begun.
    key: Vec<u8>,
    state: Option<F::State>,
}

impl<F: Grouping + Drop> Model for Grouped<F> {
    ghost use Rattle.std.specs.Prelude.{IfSome, IsTrue};
    ghost use Rattle.gimv_base.specs.Standings.{Held};

    ghost Value = { Held F F.State };

    ghost view = { λ s. record { form = s.form; key = s.key.items; state = s.state } };

    ghost invariant = { λ s. IfSome s.state (λ state. IsTrue (F.fits s.form state)) };
}

impl<F: Grouping + Drop> Grouped<F> {
    /// The role before its first record.
    pub fn new(alloc: Global, form: F) -> Grouped<F>
        ensures { result ≡ record { form = form; key = []; state = None } }
    {
        Grouped {
            form,
            key: Vec::new(alloc),
            state: None,
        }
    }
}

impl<F: Grouping + Drop> Role for Grouped<F> {
    ghost standing = { λ s. among_groups (F.part s.form) (F.further s.form) s.key s.state };

    fn line(&mut self, alloc: Global, text: &[u8], out: &mut Vec<u8>) -> Result<(), RoleFault> {
        let before = out.len();
        match take(alloc, &self.form, &mut self.key, &mut self.state, text, out) {
            Ok(()) => Ok(()),
            Err(fault) => {
                out.truncate(before);
                Err(fault)
            }
        }
    }

    fn end(&mut self, alloc: Global, out: &mut Vec<u8>) -> Result<(), RoleFault> {
        let before = out.len();
        match close_open(alloc, &self.form, &self.state, out) {
            Ok(()) => Ok(()),
            Err(fault) => {
                out.truncate(before);
                Err(fault)
            }
        }
    }
}

/// Takes the next record: it goes on with the group that has begun, or ends it and begins another.
fn take<F: Grouping>(
    alloc: Global,
    form: &F,
    key: &mut Vec<u8>,
    state: &mut Option<F::State>,
    text: &[u8],
    out: &mut Vec<u8>,
) -> Result<(), RoleFault>
    requires { IfSome state.old (λ state. IsTrue (F.fits form.now state)) }
    ensures ok { OnOk result (Takes (yet (among_groups (F.part form.now) (F.further form.now) key.old.items state.old)) (yet (among_groups (F.part form.now) (F.further form.now) key.new.items state.new)) text.now out.old.items out.new.items) }
    ensures good { OnOk result (IsNotBad (yet (among_groups (F.part form.now) (F.further form.now) key.old.items state.old)) text.now) }
    ensures bad { IsErrOf result RoleFault.Bad → IsBadAt 1 (yet (among_groups (F.part form.now) (F.further form.now) key.old.items state.old)) text.now }
    ensures bad_before { IsErrOf result RoleFault.BadBefore → IsBadAt 0 (yet (among_groups (F.part form.now) (F.further form.now) key.old.items state.old)) text.now }
    ensures kept { GoesOnFrom out.old.items out.new.items }
    ensures prompt { OnOk result (goes_on (open_key (among_groups (F.part form.now) (F.further form.now) key.old.items state.old)) text.now ≡ false → GoesOnWith (yet (among_groups (F.part form.now) (F.further form.now) key.old.items state.old) []).out out.old.items out.new.items) }
    ensures key { OnOk result (open_key (among_groups (F.part form.now) (F.further form.now) key.new.items state.new) ≡ Some (key_of text.now)) }
    ensures fits { IfSome state.new (λ state. IsTrue (F.fits form.now state)) }
{
    let pair = split_pair(text);
    if is_open(state, key, pair.0) {
        return go_on_open(alloc, form, state, text, out);
    }
    close_open(alloc, form, state, out)?;
    let begun = form.begin(alloc, text, out)?;
    replace(key, pair.0)?;
    *state = Some(begun);
    Ok(())
}

/// Whether a group has begun, and has this key.
fn is_open<S>(state: &Option<S>, key: &[u8], other: &[u8]) -> bool
    ensures { result ≡ (is_some state.now && bytes_eq other.now key.now) }
{
    state.is_some() && other == key
}

/// Takes a further record of the group that has begun.
fn go_on_open<F: Grouping>(
    alloc: Global,
    form: &F,
    state: &mut Option<F::State>,
    text: &[u8],
    out: &mut Vec<u8>,
) -> Result<(), RoleFault>
    requires begun { IsTrue (is_some state.old) }
    requires fits { IfSome state.old (λ state. IsTrue (F.fits form.now state)) }
    ensures ok { OnOk result (GoesOn (F.further form.now) state.old state.new text.now out.old.items out.new.items) }
    ensures bad { IsErrOf result RoleFault.Bad → IfSome state.old (λ state. IsBadAt 1 (F.further form.now state) text.now) }
    ensures never_before { ¬ IsErrOf result RoleFault.BadBefore }
    ensures fits { IfSome state.new (λ state. IsTrue (F.fits form.now state)) }
    ensures kept { GoesOnFrom out.old.items out.new.items }
{
    match state {
        Some(state) => form.go_on(alloc, state, text, out),
        None => Ok(()),
    }
}

/// Ends the group that has begun, if one has.
fn close_open<F: Grouping>(
    alloc: Global,
    form: &F,
    state: &Option<F::State>,
    out: &mut Vec<u8>,
) -> Result<(), RoleFault>
    requires { IfSome state.now (λ state. IsTrue (F.fits form.now state)) }
    ensures ok { OnOk result (Ends (rest_of (F.further form.now) state.now) out.old.items out.new.items) }
    ensures bad_before { IsErrOf result RoleFault.BadBefore → (rest_of (F.further form.now) state.now).bad ≡ Some 0 }
    ensures never_bad { ¬ IsErrOf result RoleFault.Bad }
    ensures kept { GoesOnFrom out.old.items out.new.items }
{
    match state {
        Some(state) => form.close(alloc, state, out),
        None => Ok(()),
    }
}

/// Makes this the content of the list. Without memory the list is empty.
fn replace(list: &mut Vec<u8>, content: &[u8]) -> Result<(), RoleFault>
    ensures ok { OnOk result (list.new.items ≡ content.now) }
    ensures no_memory { OnErr result (result ≡ Err RoleFault.NoMemory) }
    ensures emptied { OnErr result (list.new.items ≡ []) }
{
    list.clear();
    list.extend_from_slice(content)?;
    Ok(())
}
