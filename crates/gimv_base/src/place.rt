ghost use Rattle.std.specs.Prelude.{◌≡◌, true};
ghost use Rattle.gimv_base.specs.BaseRules.{headed, no_text, place_rule, placed_part};
ghost use Rattle.gimv_base.specs.Placing.{placing_blames_the_end, placing_part};
ghost use Rattle.gimv_base.specs.Records.{place_record_of};
ghost use Rattle.gimv_base.specs.Standings.{fresh};

use crate::grouped::{Grouped, Grouping};
use crate::lines::append_number;
use crate::records::{read_number, read_place};
use crate::role::{Role, RoleFault};
use std::alloc::Global;

/// `place`: the id at each place, with the place's number.
#[derive(Drop)]
pub struct PlaceRole {
    groups: Grouped<Place>,
}

impl PlaceRole {
    /// The role before its first record.
    pub fn new(alloc: Global) -> PlaceRole
        ensures { ⟦<PlaceRole as Role>⟧.standing result ≡ fresh place_rule }
    {
        PlaceRole {
            groups: Grouped::new(alloc, Place),
        }
    }
}

impl Role for PlaceRole {
    ghost standing = { λ s. ⟦<Grouped<Place> as Role>⟧.standing s.groups };

    fn line(&mut self, alloc: Global, text: &[u8], out: &mut Vec<u8>) -> Result<(), RoleFault> {
        self.groups.line(alloc, text, out)
    }

    fn end(&mut self, alloc: Global, out: &mut Vec<u8>) -> Result<(), RoleFault> {
        self.groups.end(alloc, out)
    }
}

/// What is done with one place: its id, and then its number.
#[derive(Clone, Copy)]
struct Place;

/// How far the group of a place has come.
#[derive(Clone, Copy)]
enum Placing {
    /// The id was read, and the number is wanted.
    Wants(u32),
    /// The id was written with its number, and nothing may follow.
    Settled,
}

impl Grouping for Place {
    type State = Placing;

    ghost part = { λ _. headed place_record_of no_text (λ place. placed_part place.1) };

    ghost further = { λ _. placing_part };

    ghost fits = { λ _ _. true };

    ghost blames_the_end = { λ _. placing_blames_the_end };

    fn begin(&self, _: Global, text: &[u8], _: &mut Vec<u8>) -> Result<Placing, RoleFault> {
        match read_place(text) {
            Some((_, id)) => Ok(Placing::Wants(id)),
            None => Err(RoleFault::Bad),
        }
    }

    fn go_on(
        &self,
        alloc: Global,
        state: &mut Placing,
        text: &[u8],
        out: &mut Vec<u8>,
    ) -> Result<(), RoleFault> {
        let Placing::Wants(id) = *state else {
            return Err(RoleFault::Bad);
        };
        let Some(number) = read_number(text) else {
            return Err(RoleFault::Bad);
        };
        append_number(alloc, out, id, number)?;
        *state = Placing::Settled;
        Ok(())
    }

    fn close(&self, _: Global, state: &Placing, _: &mut Vec<u8>) -> Result<(), RoleFault> {
        match state {
            Placing::Wants(_) => Err(RoleFault::BadBefore),
            Placing::Settled => Ok(()),
        }
    }
}
