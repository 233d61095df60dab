ghost use Rattle.std.specs.Prelude.{◌≡◌, ℕ, ◌+◌, ◌*◌, ◌<◌, ◌≤◌, List, [], ◌∷◌, length};
ghost use Rattle.queue.specs.Heap.{behind};
ghost use Rattle.search.specs.Search.{start, tell_first};
ghost use Rattle.search.specs.Law.{first_within};
ghost use Rattle.browse.specs.Desk.{thing_of, one_of, kids_held, standing, node_at0, without_first, with_one, opened_to};

use super::Desk;
use crate::kids::Kids;
use crate::waiting::{Class, Waiting};
use queue::heap;

impl Desk {
    /// Only the root waits.
    pub(crate) fn new(root: u16) -> Desk
        ensures { standing result ≡ start (node_at0 root) }
    {
        let mut table = [Waiting::default(); 2048];
        table[0] = Waiting {
            distance: 0,
            class: Class::Node,
            number: root,
            arrival: 0,
            top: 0,
        };
        Desk {
            table,
            used: 1,
            opened: 0,
            told: 0,
            arrivals: 1,
        }
    }

    #[tactic(auto, using(crate::specs::Waitings::length_waiting))]
    pub(crate) fn waiting(&self) -> usize
        ensures { result ≡ length (standing self.now).waiting }
    {
        self.used
    }

    pub(crate) fn opened(&self) -> u16
        ensures { result ≡ (standing self.now).opened }
    {
        self.opened
    }

    pub(crate) fn told(&self) -> u16
        ensures { result ≡ (standing self.now).told }
    {
        self.told
    }

    /// What waits first, if it is no farther than the limit.
    pub(crate) fn first_within(&self, limit: u64) -> Option<Waiting>
        ensures { one_of result ≡ first_within (λ x. x.distance) limit (standing self.now).waiting }
    {
        heap::first(&self.table, self.used).filter(|first| first.distance <= limit)
    }

    // The first waits no more.
    // Here, in `tell` and in `open`: a guard that lends the desk is no plainer, as `kids_to_open` asks it meanwhile.
    fn drop_first(&mut self)
        requires { 0 < length (standing self.old).waiting }
        ensures standing { standing self.new ≡ without_first (standing self.old) }
        ensures used { self.new.used + 1 ≡ self.old.used }
        ensures arrivals { self.new.arrivals ≡ self.old.arrivals }
    {
        heap::pop(&mut self.table, self.used);
        self.used -= 1;
    }

    /// The first is told.
    pub(crate) fn tell(&mut self)
        requires { 0 < length (standing self.old).waiting }
        ensures { standing self.new ≡ tell_first (standing self.old) (behind (standing self.old).waiting) }
    {
        self.drop_first();
        self.told += 1;
    }

    // It comes after all that wait.
    fn enter(&mut self, mut kid: Waiting)
        requires room { self.old.used < 2048 }
        requires grown { self.old.arrivals < 16 * self.old.opened + 1 }
        ensures standing { standing self.new ≡ with_one (thing_of kid) (standing self.old) }
        ensures used { self.new.used ≡ self.old.used + 1 }
        ensures arrivals { self.new.arrivals ≡ self.old.arrivals + 1 }
    {
        kid.arrival = self.arrivals;
        heap::push(&mut self.table, self.used, kid);
        self.used += 1;
        self.arrivals += 1;
    }

    /// The first is opened, and its kids come to wait.
    pub(crate) fn open(&mut self, kids: &Kids)
        requires some { 0 < length (standing self.old).waiting }
        requires few { (standing self.old).opened < 512 }
        requires room { length (standing self.old).waiting + length (kids_held kids.now) ≤ 2049 }
        ensures { standing self.new ≡ opened_to (kids_held kids.now) (standing self.old) }
    {
        self.drop_first();
        self.opened += 1;
        for kid in kids.all() {
            self.enter(*kid);
        }
    }
}
