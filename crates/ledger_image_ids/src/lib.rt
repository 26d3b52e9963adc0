// The ids of an image's registries, as they are met.
#![tactic(auto)]

ghost use Rattle.std.specs.Prelude.{◌≡◌, [], ◌≤◌, length};
ghost use Rattle.cesr.specs.Primitives.{eq_said};
ghost use Rattle.ledger_step.specs.Tables.{has};
ghost use Rattle.ledger_image_ids.specs.IdLists.{view_ids, pushed};

use cesr::{Matter, Said};
use ledger_step::slices::in_use;

// The ids are the first `count` of the items, which are an array, since there is no heap.
#[derive(Clone, Copy)]
pub struct Ids {
    pub items: [Said; 16],
    pub count: usize,
}

impl Ids {
    #[tactic(auto, unfolding(crate::specs::IdLists::view_ids))]
    pub fn empty() -> Ids
        ensures { view_ids result ≡ [] }
    {
        Ids {
            items: [Said(Matter::none()); 16],
            count: 0,
        }
    }

    #[tactic(auto, unfolding(crate::specs::IdLists::view_ids))]
    pub fn as_slice(&self) -> &[Said]
        ensures { result.now ≡ view_ids self.now }
    {
        in_use(&self.items, self.count)
    }

    // How many there are: at most 16, whatever the count says.
    #[tactic(auto, unfolding(crate::specs::IdLists::view_ids))]
    pub fn size(&self) -> usize
        ensures value { result ≡ length (view_ids self.now) }
        ensures self_len_bound { length (view_ids self.now) ≤ 16 }
    {
        self.as_slice().len()
    }

    // `id` behind the others. Where there are 16 they stay as they are.
    #[tactic(auto, unfolding(crate::specs::IdLists::view_ids, crate::specs::IdLists::pushed))]
    pub fn push(&mut self, id: Said)
        ensures { view_ids self.new ≡ pushed (view_ids self.old) id }
    {
        if self.count < 16 {
            self.items[self.count] = id;
            self.count += 1;
        }
    }

    pub fn contains(&self, id: Said) -> bool
        ensures { result ≡ has eq_said id (view_ids self.now) }
    {
        self.as_slice().contains(&id)
    }
}
