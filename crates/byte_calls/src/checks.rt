// The settings of a call on bytes, and the checks that all calls share: the support's bytes, then the settings on the support that they hold.
ghost use Rattle.std.specs.Prelude.{◌≡◌, length, take};
ghost use Rattle.meaning.specs.Boxes.{cells};
ghost use Rattle.meaning.specs.Settings.{fits_width, small_number, cube};
ghost use Rattle.meaning.specs.Calls.{reply};
ghost use Rattle.answers.specs.Said.{said};
ghost use Rattle.byte_calls.specs.Bytes.{decoded};
ghost use Rattle.byte_calls.specs.Calls.{box_number};
ghost use Rattle.byte_calls.specs.Forms.{byte_degrees, settings_on};
ghost use Rattle.byte_calls.specs.TableLaws.{Held};

use crate::codec;
use answers::Refusal;
use settings::Settings;

// The settings of a call on bytes: the support, of `count` indices, the number of variables in all, the width, and the highest degree, which every support
// variable has. Not `Settings`, since the support crosses as bytes, which need not be whole entries, so that its count stands beside them.
#[derive(Clone, Copy, Debug, PartialEq, Eq)]
pub struct ByteSettings<'a> {
    pub support: &'a [u8],
    pub count: u64,
    pub total: u32,
    pub bitwidth: u32,
    pub max_degree: u8,
}

impl<'a> ByteSettings<'a> {
    // The settings with these indices as support.
    pub(crate) fn on<'b>(&self, indices: &'b [u64]) -> Settings<'b>
        ensures { result ≡ settings_on self.now indices.entry }
    {
        Settings {
            support: indices,
            total: self.total,
            bitwidth: self.bitwidth,
            max_degree: self.max_degree,
        }
    }

    // The check of the settings with these indices as support.
    fn check_on(&self, indices: &[u64], strict: bool) -> Result<u64, Refusal>
        ensures { let s = self.now in said result ≡ reply (small_number strict s.total (fits_width s.bitwidth) indices.now (cube indices.now s.max_degree))
            (cells (cube indices.now s.max_degree)) }
    {
        let fits = settings::width_fits(self.bitwidth);
        self.on(indices)
            .check_within(settings::BYTE_LIMIT, strict, fits)
    }

    // The support's bytes and the settings: the number of cells, at most 4,096, or the first cause to turn the call down, in the order 9 (the support's
    // bytes), 1, 2, 3, 4 (where `strict`), 5, 7, 8. More than twenty indices, below a total of at most twenty, cannot be distinct, so that they are turned
    // down as one index is that stands twice, past the total where one of them is. Else `places` begins with the indices.
    // The caller lends the twenty places: a type of the decoded indices costs a small call some 20 ns.
    pub(crate) fn check(&self, strict: bool, places: &mut [u64]) -> Result<u64, Refusal>
        requires { length places.old ≡ 20 }
        ensures says { let s = self.now in said result ≡ reply (box_number strict s.count s.total s.bitwidth s.support.now (byte_degrees s))
            (cells (byte_degrees s)) }
        ensures leaves { let s = self.now in Held s.support.now s.count → take s.count places.new ≡ decoded s.support.now }
    {
        if !codec::holds(self.support, self.count) {
            return Err(Refusal::WrongLength);
        }
        if 20 < self.count {
            let twice = [codec::stand_in(self.support, self.total); 2];
            return self.check_on(&twice, strict);
        }
        let indices = &mut places[..self.count as usize];
        codec::decode(self.support, indices);
        self.check_on(indices, strict)
    }
}
