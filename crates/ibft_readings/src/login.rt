// The login order.
ghost use Rattle.std.specs.Prelude.{◌≡◌, [], ◌∷◌, cond, ◌+◌, ◌<◌, set, ltb};
ghost use Rattle.ibft_layout.specs.Layout.{target_count};
ghost use Rattle.table_header.specs.Verdict.{Accepted};
ghost use Rattle.ibft_readings.specs.Login.{target_flags, valid, selected, chosen, target_index, order_in, placed, login_order_of};

use crate::control::control_of;
use crate::slots::Slots;
use ibft_layout::control::Control;
use ibft_layout::layout::target_slot;
use ibft_layout::shape::FLAGS_AT;
use ibft_layout::target::Target;
use ibft_table::check::check;
use ibft_table::starts::{index_in, start_in};
use octets::read::byte_at;
use table_header::verdict::{ACCEPTED, Refusal};

const TARGET_COUNT: u8 = 8;

// How many of the eight places are used; a used place holds the target's Index (which may be 255 itself), an unused one 255.
// (Fixed room with a count beside it: no heap.)
#[derive(Clone, Copy)]
pub struct LoginOrder {
    pub refusal: Refusal,
    pub used: u8,
    pub places: [u8; TARGET_COUNT as usize],
}

impl LoginOrder {
    // Nobody is placed.
    fn none(refusal: Refusal) -> LoginOrder
        ensures { result ≡ record { refusal = refusal; used = 0; places = 255 ∷ 255 ∷ 255 ∷ 255 ∷ 255 ∷ 255 ∷ 255 ∷ 255 ∷ [] } }
    {
        LoginOrder {
            refusal,
            used: 0,
            places: [255; TARGET_COUNT as usize],
        }
    }

    // The target with this Index behind those that are placed.
    fn then(self, index: u8) -> LoginOrder
        requires { self.used < target_count }
        ensures { result ≡ record { refusal = self.refusal; used = self.used + 1; places = set self.places self.used index } }
    {
        let refusal = self.refusal;
        let mut places = self.places;
        places[self.used as usize] = index;
        LoginOrder {
            refusal,
            used: self.used + 1,
            places,
        }
    }
}

impl<'a> Slots<'a> {
    // Target n is the n-th by Index: the named ones, then the extras. Its flags.
    fn target_flags(&self, n: u8) -> u8
        ensures { result ≡ target_flags self.now.starts self.now.t.now n }
    {
        byte_at(
            self.t,
            start_in(&self.starts, target_slot(n) as u16) as usize + FLAGS_AT as usize,
        )
    }

    // Its Index.
    fn target_index(&self, n: u8) -> u8
        ensures { result ≡ target_index self.now.starts self.now.t.now n }
    {
        index_in(&self.starts, self.t, target_slot(n) as u16)
    }

    // Whether it is present and valid.
    fn is_valid(&self, n: u8) -> bool
        ensures { result ≡ valid self.now.starts self.now.t.now n }
    {
        if start_in(&self.starts, target_slot(n) as u16) == 0 {
            return false;
        }
        self.target_flags(n) & Target::VALID != 0
    }

    // Whether it is valid and selected. (Selected without valid counts for nothing.)
    fn is_selected(&self, n: u8) -> bool
        ensures { result ≡ selected self.now.starts self.now.t.now n }
    {
        if !self.is_valid(n) {
            return false;
        }
        self.target_flags(n) & Target::SELECTED != 0
    }

    // The target that comes before the others: in single mode the selected one of the lowest Index; `TARGET_COUNT` where there
    // is none. (No Option: `chosen` of specs/ has that number, which no n below equals.)
    fn lead_of(&self) -> u8
        ensures { result ≡ chosen self.now.starts self.now.t.now }
    {
        if control_of(self.t).flags & Control::SINGLE_LOGIN == 0 {
            return TARGET_COUNT;
        }
        for n in 0..TARGET_COUNT {
            if self.is_selected(n) {
                return n;
            }
        }
        TARGET_COUNT
    }

    // The order with the lead placed, if there is one, and nobody else.
    fn led_by(&self, lead: u8) -> LoginOrder
        ensures { result ≡ placed Accepted (cond (ltb lead target_count) (target_index self.now.starts self.now.t.now lead ∷ []) []) }
    {
        let order = LoginOrder::none(ACCEPTED);
        if lead < TARGET_COUNT {
            return order.then(self.target_index(lead));
        }
        order
    }

    // The order of a table that the check accepts: the lead, then the other valid targets by ascending Index.
    fn order_of(&self) -> LoginOrder
        ensures { result ≡ placed Accepted (order_in self.now.starts self.now.t.now) }
    {
        let lead = self.lead_of();
        let mut order = self.led_by(lead);
        for n in 0..TARGET_COUNT {
            if n != lead && self.is_valid(n) {
                order = order.then(self.target_index(n));
            }
        }
        order
    }
}

// The targets to log in to, in their order.
pub fn login_order(t: &[u8]) -> LoginOrder
    ensures { result ≡ login_order_of t.now }
{
    match check(t) {
        Ok(()) => Slots::of(t).order_of(),
        Err(refusal) => LoginOrder::none(refusal),
    }
}
