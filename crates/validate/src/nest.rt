// The containers around a place.
ghost use Rattle.std.specs.Prelude.{◌≡◌, [], ◌∷◌, ◌≤◌, ◌<◌, length};
ghost use Rattle.json_text.specs.Grammar as grammar;
ghost use Rattle.json_text.specs.Machine.{Stack, is_empty, pop};
ghost use Rattle.json_text.specs.Verdict.{max_depth};
ghost use Rattle.validate.specs.Nesting.{kind_of, stack_of, Full, Innermost};

use json_text::MAX_DEPTH;
use std::marker::Model;

// The kinds of containers.
#[derive(Clone, Copy)]
pub enum Kind {
    Array,
    Object,
}

impl Kind {
    // The bracket that closes a container of the kind.
    pub fn closing(self) -> u8
        ensures { result ≡ grammar.closing (kind_of self) }
    {
        match self {
            Kind::Array => b']',
            Kind::Object => b'}',
        }
    }
}

// The kinds of the containers around a place, from the outermost on, and how many there are.
#[derive(Drop)]
pub struct Nest {
    kinds: [Kind; MAX_DEPTH],
    depth: usize,
}

impl Model for Nest {
    ghost Value = { Stack };

    ghost view = { λ n. stack_of n.kinds n.depth };

    ghost invariant = { λ n. n.depth ≤ length n.kinds };
}

impl Nest {
    // No container.
    pub fn new() -> Nest
        ensures { result ≡ [] }
    {
        Nest {
            kinds: [Kind::Array; MAX_DEPTH],
            depth: 0,
        }
    }

    // Whether there is none.
    pub fn is_empty(&self) -> bool
        ensures { result ≡ is_empty self.now }
    {
        self.depth == 0
    }

    // Whether there is no room for one more.
    pub fn is_full(&self) -> bool
        ensures { Full self.now result }
    {
        self.depth >= MAX_DEPTH
    }

    // The kind of the innermost one.
    pub fn innermost(&self) -> Option<Kind>
        ensures { Innermost self.now result }
    {
        if self.depth == 0 {
            return None;
        }
        Some(self.kinds[self.depth - 1])
    }

    // One more, inside the innermost.
    pub fn push(&mut self, kind: Kind)
        requires { length self.old < max_depth }
        ensures { self.new ≡ kind_of kind ∷ self.old }
    {
        self.kinds[self.depth] = kind;
        self.depth += 1;
    }

    // Without the innermost one.
    pub fn pop(&mut self)
        requires { 0 < length self.old }
        ensures { (self.new ≡ pop self.old) × (length self.old ≤ max_depth) }
    {
        self.depth -= 1;
    }
}
