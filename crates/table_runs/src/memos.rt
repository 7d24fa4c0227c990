ghost use Rattle.shared_table.specs.Known.{IsPassOf, IsSamePass};

use crate::plain::Plain;
use crate::session::{Session, number_word};
use arith_word::Label;
use memo::{Found, KeptAs, find, forget_range, keep};
use shared_table::{CellPut, Node, Pass, Shared};

/// How many labels the sessions keep the number 1 under. A path has as many places, so there is
/// always room.
const LABELS: u64 = 8;

/// How many memos each session keeps.
const MEMOS: u64 = 800;

/// Keeps the number 1 under a label of the base. Answers the node that is kept there then.
fn keep_one(shared: &Shared<Plain>, p: &mut Pass, label: u32) -> Option<Node>
    requires table { IsPassOf shared.now.table.shared.table_id shared.now.sizes p.old }
    ensures same { IsSamePass p.old p.new }
{
    let Some(_author) = p.author() else {
        return None;
    };
    let CellPut::Home(id) = shared.put_cell(p, number_word(1)) else {
        return None;
    };
    match keep(shared, p, 0, Label(label), Node(id)) {
        KeptAs::There(n) => Some(n),
        KeptAs::Kept(_) => Some(Node(id)),
        KeptAs::Crowded => None,
    }
}

impl Session<'_> {
    /// Keeps the number 1 under the labels from one on and round the end, looks for it, and forgets
    /// every other one. The session isn't exact where another node is kept or found.
    pub fn keep_and_forget(&mut self, from: u64) {
        let one = keep_one(self.shared, &mut self.pass, 0);
        for k in 0..MEMOS {
            let label = ((from % LABELS + k) % LABELS) as u32;
            let kept = keep_one(self.shared, &mut self.pass, label);
            let found = self.found(label);
            let right = found.is_none() || found == one;
            self.exact = self.exact && one.is_some() && kept == one && right;
            if k % 2 == 0 {
                forget_range(self.shared, &mut self.pass, 0, Label(label), Label(label));
            }
        }
    }

    /// The node that is found under a label of the base.
    fn found(&mut self, label: u32) -> Option<Node> {
        match find(self.shared, &mut self.pass, 0, Label(label)) {
            Found::Node(n) => Some(n),
            Found::Absent => None,
        }
    }

    /// Keeps the number 1 under each label, and then forgets all, while no other session works.
    /// Answers whether each is found at first, and none at the end.
    pub fn each_is_kept_until_forgotten(&mut self) -> bool {
        let mut right = true;
        for label in 0..LABELS as u32 {
            let kept = keep_one(self.shared, &mut self.pass, label);
            right = right && kept.is_some() && self.found(label) == kept;
        }
        forget_range(
            self.shared,
            &mut self.pass,
            0,
            Label(0),
            Label(LABELS as u32 - 1),
        );
        for label in 0..LABELS as u32 {
            right = right && self.found(label).is_none();
        }
        right
    }
}
