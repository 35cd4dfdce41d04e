//! Classes of services: a mapping's number tells the class of its service, so most mappings of other services are passed
//! over without a look at them.
ghost use Rattle.std.specs.Prelude.{◌≡◌, ◌<◌, ◌%◌, ℕ, true, false, length, filter, IfSome};
ghost use Rattle.lost_routing.specs.Classes.{class_of, has_class, is_told, KeepsClasses, AreOfChain};

use lost_mapping::Mapping;
use lost_urn::ServiceUrn;
use std::hash::{FoldHasher, Hash, Hasher};
use std::marker::Model;

/// How many classes there are: the numbers of mappings are this far apart.
pub(crate) const CLASSES: usize = 64;

/// A flag for each class of services. Contracts see it as the list of the flags.
#[derive(Drop)]
pub(crate) struct Classes {
    marked: [bool; CLASSES],
}

impl Model for Classes {
    ghost use Rattle.std.specs.Prelude.{List, Bool};

    ghost Value = { List Bool };

    ghost view = { λ a. a.marked };
}

impl Classes {
    /// No class.
    pub(crate) fn none() -> Classes
        ensures { (class : ℕ) → has_class result class ≡ false }
    {
        Classes {
            marked: [false; CLASSES],
        }
    }

    /// Marks a class. The others stay as they were.
    fn mark(&mut self, class: usize)
        requires { class < CLASSES }
        ensures marked { has_class self.new class ≡ true }
        ensures keeps { KeepsClasses self.old self.new }
    {
        self.marked[class] = true;
    }

    /// Whether the class is marked.
    fn has(&self, class: usize) -> bool
        requires { class < CLASSES }
        ensures { result ≡ has_class self.now class }
    {
        self.marked[class]
    }

    /// Marks the class of the mapping's service, unless the number tells it. What was marked stays so.
    pub(crate) fn mark_untold(&mut self, number: u64, mapping: &Mapping)
        ensures told { is_told self.new number mapping.now ≡ true }
        ensures keeps { KeepsClasses self.old self.new }
    {
        let class = class_of(mapping.service().text());
        if class != told_class(number) {
            self.mark(class);
        }
    }

    /// The classes of the service and of those above it, unless one of them is among these.
    pub(crate) fn without(&self, service: &ServiceUrn) -> Option<Classes>
        ensures { IfSome result (λ classes. AreOfChain service.now self.now classes (length service.now)) }
    {
        let mut classes = Classes::none();
        for cut in 0..service.depth() {
            let class = class_of(service.front(cut + 1));
            if self.has(class) {
                return None;
            }
            classes.mark(class);
        }
        Some(classes)
    }

    /// Keeps only the numbers that tell one of these classes, in their order.
    pub(crate) fn keep(&self, numbers: &mut Vec<u64>)
        ensures { numbers.new.items ≡ filter (λ number. has_class self.now (number % 64)) numbers.old.items }
    {
        numbers.retain(|number| self.has(told_class(*number)));
    }
}

/// The class of the service of a text, by its hash (own rule).
#[tactic(auto, unfolding(crate::specs::Classes::class_of))]
pub(crate) fn class_of(text: &str) -> usize
    ensures class { result ≡ class_of text.now }
    ensures in_range { result < CLASSES }
{
    let mut hasher = FoldHasher::default();
    text.hash(&mut hasher);
    (hasher.finish() % 64) as usize
}

/// The class that a number tells.
fn told_class(number: u64) -> usize
    ensures class { result ≡ number % 64 }
    ensures in_range { result < CLASSES }
{
    (number % 64) as usize
}
