//! How large the drawn books are, and how they are built.

use crate::extent::Field;
use chance::chance::Chance;

/// What a tree is drawn from.
#[derive(Clone, Copy)]
pub struct Shape {
    pub field: Field,
    pub picks: u16,
    /// Pick numbers that no entry names.
    pub spare: u16,
    /// The fewest and the most places of a node; the last of a level may have fewer.
    pub narrowest: i32,
    pub widest: i32,
    /// The root is at least this high, if need be above single children.
    pub height: u8,
    /// How much farther than need be a node's box may go.
    pub slack: i32,
    /// Whether picks that stand together are near to each other.
    pub sorted: bool,
}

/// As many nodes as a book may have.
pub const MOST_NODES: Shape = Shape {
    field: Field {
        step: 1,
        steps: 40,
        longest: 3,
    },
    picks: 1532,
    spare: 0,
    narrowest: 4,
    widest: 4,
    height: 0,
    slack: 0,
    sorted: true,
};

/// As many places and picks as a book may have, all in one point, so that all wait at once.
pub const MOST_PLACES: Shape = Shape {
    field: Field {
        step: 0,
        steps: 0,
        longest: 0,
    },
    picks: 1920,
    spare: 128,
    narrowest: 16,
    widest: 16,
    height: 0,
    slack: 0,
    sorted: false,
};

// Few places with many at equal distance, a middling field, the whole range, or only its ends and middle.
fn drawn_field(chance: &mut Chance) -> Field {
    match chance.below(4) {
        0 => Field {
            step: 1,
            steps: 3,
            longest: 2,
        },
        1 => Field {
            step: 10,
            steps: 100,
            longest: 5,
        },
        2 => Field::WHOLE,
        _ => Field {
            step: 10_000_000,
            steps: 1,
            longest: 1,
        },
    }
}

// Larger books have wider nodes, since the number of nodes is limited.
fn drawn_widths(chance: &mut Chance, picks: u16) -> (i32, i32) {
    if picks > 600 {
        return (10, 16);
    }
    match chance.below(4) {
        0 => (2, 4),
        1 => (3, 8),
        2 => (1, 16),
        _ => (16, 16),
    }
}

fn drawn_picks(chance: &mut Chance) -> u16 {
    match chance.below(4) {
        0 => chance.between(0, 4) as u16,
        1 => chance.between(5, 80) as u16,
        2 => chance.between(80, 500) as u16,
        _ => chance.between(500, 1700) as u16,
    }
}

fn drawn_height(chance: &mut Chance, picks: u16) -> u8 {
    // a leaf without places may only be the root
    let highest = if picks == 0 { 0 } else { 7 };
    chance.between(0, highest) as u8
}

impl Shape {
    pub(crate) fn draw(chance: &mut Chance) -> Shape {
        let field = drawn_field(chance);
        let picks = drawn_picks(chance);
        let (narrowest, widest) = drawn_widths(chance, picks);
        let height = drawn_height(chance, picks);
        let slack = if chance.once_in(2) { 0 } else { field.step };
        Shape {
            field,
            picks,
            spare: chance.between(0, 20) as u16,
            narrowest,
            widest,
            height,
            slack,
            sorted: chance.once_in(2),
        }
    }

    /// The pick numbers are below this.
    pub(crate) fn pick_limit(&self) -> u16 {
        self.picks.saturating_add(self.spare)
    }
}
