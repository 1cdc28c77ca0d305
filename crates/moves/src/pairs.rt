// The passes of a move, two at once: they read and write each number once.
ghost use Rattle.std.specs.Prelude.{◌≡◌, ℕ, suc, ◌<◌, List, length};

// What the passes are made over.
pub(crate) trait Pairs: Copy {
    // how many passes there are
    ghost degree: { Self → ℕ };

    // how long a part may be
    ghost fits: { Self → ℕ → Type 0 };

    // what the passes below one down to another make of a part
    ghost made: { Self → ℕ → ℕ → List ℕ → List ℕ → Type 0 };

    fn degree(self) -> usize
        ensures { result ≡ degree self };

    // The pass `done`, which comes first and is the shortest, alone.
    fn alone(self, part: &mut [u64], done: usize)
        requires { (suc done ≡ degree self) × fits self (length part.old) }
        ensures { made self (suc done) done part.old part.new };

    // The passes `done` + 1 and `done` at once.
    fn two(self, part: &mut [u64], done: usize)
        requires { (suc done < degree self) × fits self (length part.old) }
        ensures { made self (suc (suc done)) done part.old part.new };

    // no pass leaves a part as it was
    ghost none: { (x : Self) (k : ℕ) (t : List ℕ) → made x k k t t };

    // and passes follow passes
    ghost follow: { (x : Self) (k l n : ℕ) (t u v : List ℕ) → made x k l t u → made x l n u v → made x k n t v };
}

// All passes; where their number is odd, the first one is made alone.
pub(crate) fn make_passes<P: Pairs>(pairs: P, part: &mut [u64])
    requires { P.fits pairs (length part.old) }
    ensures { P.made pairs (P.degree pairs) 0 part.old part.new }
{
    let mut done = pairs.degree();
    if done % 2 == 1 {
        done -= 1;
        pairs.alone(part, done);
    }
    // An index by hand: over `(0..done / 2).rev()` a block takes two instructions more.
    while 0 < done {
        done -= 2;
        pairs.two(part, done);
    }
}
