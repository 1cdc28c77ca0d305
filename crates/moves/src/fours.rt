// What a move makes of a line of degree 3, modulo 2^64, without a loop: the three passes leave its last coefficient.
ghost use Rattle.theory.specs.MovedLines.{moved_line};
ghost use Rattle.moves.specs.MoveLaws.{moved_line_local, moved_of_mul};

use lines::FourTransform;

// A move by an offset.
#[derive(Clone, Copy, Debug, PartialEq, Eq)]
pub(crate) struct Move {
    pub(crate) offset: u64,
}

impl FourTransform for Move {
    ghost line = { λ x m. moved_line m x.offset };

    const BY_TWOS: bool = true;

    // Pass 2 alters the third coefficient, pass 1 the second and the third, pass 0 all three. The multiples of the last coefficient, by offset - 2, offset and
    // offset + 2, come from one product.
    fn four(self, numbers: [u64; 4]) -> [u64; 4] {
        let [first, second, third, last] = numbers;
        let offset = self.offset;
        let multiple = arith::wrapping_mul(offset, last);
        let double = last.wrapping_add(last);
        let once = third.wrapping_add(arith::wrapping_sub(multiple, double));
        let inner = second.wrapping_add(arith::wrapping_mul(arith::wrapping_sub(offset, 1), once));
        let twice = once.wrapping_add(multiple);
        [
            first.wrapping_add(arith::wrapping_mul(offset, inner)),
            inner.wrapping_add(arith::wrapping_mul(offset.wrapping_add(1), twice)),
            twice.wrapping_add(multiple.wrapping_add(double)),
            last,
        ]
    }

    ghost local = { λ x m. moved_line_local m x.offset };

    ghost of_mul = { λ x. moved_of_mul x.offset };
}
