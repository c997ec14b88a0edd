//! Numbers that are drawn: the same ones in each run.

ghost use Rattle.std.specs.Prelude.{◌<◌, ◌≤◌, length};

/// A generator of numbers.
#[derive(Clone, Copy, Debug)]
pub struct Draws {
    state: u64,
}

impl Draws {
    /// The numbers of this seed.
    pub fn new(seed: u64) -> Draws {
        let mut draws = Draws {
            state: seed.wrapping_mul(0x9e37_79b9_7f4a_7c15),
        };
        for _turn in 0..4 {
            let _word = draws.word();
        }
        draws
    }

    /// Any number of 32 bits.
    pub fn word(&mut self) -> u32 {
        self.state = self
            .state
            .wrapping_mul(6_364_136_223_846_793_005)
            .wrapping_add(1_442_695_040_888_963_407);
        (self.state / 0x1_0000_0000) as u32
    }

    /// Any number of 64 bits.
    pub fn long(&mut self) -> u64 {
        let high = self.word() as u64;
        let low = self.word() as u64;
        high * 0x1_0000_0000 + low
    }

    /// Any byte.
    pub fn byte(&mut self) -> u8 {
        (self.word() / 0x100_0000) as u8
    }

    /// A number below this one.
    pub fn below(&mut self, count: u32) -> u32
        requires { 0 < count }
        ensures { result < count }
    {
        self.word() % count
    }

    /// Whether one of so many cases is the first.
    pub fn once_in(&mut self, count: u32) -> bool
        requires { 0 < count }
    {
        self.below(count) == 0
    }

    /// One of these.
    pub fn one_of<T: Copy>(&mut self, list: &[T]) -> T
        requires some { 0 < length list.now }
        requires few { length list.now ≤ 1000 }
    {
        let index = self.below(list.len() as u32);
        list[index as usize]
    }
}
