// The plan of a share, what a seat knows, and the rule.
ghost use Rattle.std.specs.Prelude.{map};
ghost use Rattle.bk_share.specs.Plan.{Scheme};

use atomic_table::{Join, Play, Split, TableRule};
use bk_core::View;
use std::marker::Model;

/// What a share is told when it is made.
#[derive(Drop)]
pub struct Plan {
    pub announced: [Vec<u64>; 3],
    pub parts: u64,
}

impl Model for Plan {
    ghost Value = { Scheme };

    ghost view = { λ p. record { announced = map (λ v. v.items) p.announced; parts = p.parts } };
}

/// What a seat knows. No value of it is made.
pub struct Seen {
    pub plan: Plan,
    pub view: View,
}

pub struct Law;

impl TableRule<(), Seen, Plan> for Law {
    ghost use Rattle.bk_core.specs.Rule.{sight};
    ghost use Rattle.std.specs.Prelude.{[]};
    ghost use Rattle.bk_share.specs.Law.{Lawful, seen};

    ghost holds = { Lawful };

    ghost first = { λ p. seen p (sight p.parts [] []) };
}

pub struct Drawing;

impl Play<(), Seen> for Drawing {
    ghost use Rattle.bk_share.specs.Law.{Draws};

    ghost then = { Draws };
}

pub struct Looking;

impl Play<(), Seen> for Looking {
    ghost use Rattle.bk_share.specs.Law.{Looks};

    ghost then = { Looks };
}

pub struct Taking;

impl Play<(), Seen> for Taking {
    ghost use Rattle.bk_share.specs.Law.{Takes};

    ghost then = { Takes };
}

pub struct OnePart;

impl Split<Seen> for OnePart {
    ghost use Rattle.bk_share.specs.Law.{left, right};

    ghost left = { left };

    ghost right = { right };
}

pub struct Together;

impl Join<Seen> for Together {
    ghost use Rattle.bk_share.specs.Law.{merged, spent};

    ghost both = { merged };

    ghost spent = { spent };
}
