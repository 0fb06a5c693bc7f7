// Links on the way to a value, and what is told of them.
ghost use Rattle.std.specs.Prelude.{⊤};

// How an item hangs below its container: by its position in an array, or by the bounds of its name in the record.
#[derive(Clone, Copy)]
pub enum KeptLink {
    Position(u32),
    Name { from: u32, to: u32 },
}

// What is told the links on the way to a value that was found, one by one from the value up.
pub trait Keeper {
    ghost use Rattle.seek.specs.declared.keeper.KeptLink.{KeptLink};

    // Before and after it was told a link.
    ghost keeps: { Self → KeptLink → Self → Type 0 };

    fn keep(&mut self, link: KeptLink)
        ensures { keeps self.old link self.new };
}

// Keeps nothing.
impl Keeper for () {
    ghost keeps = { λ _ _ _. ⊤ };

    fn keep(&mut self, _link: KeptLink) {}
}
