// The marks of the pairs that have been met, in one fixed table (document 01, "Compare"): making, asking and setting a mark.
ghost use Rattle.std.specs.Prelude.{◌≡◌, ◌<◌};
ghost use Rattle.comparer_pairs.specs.Pairs.{pairs};
ghost use Rattle.comparer_pairs.specs.Marks.{MarkTable, unmarked, met, with_mark};

// A function of its own, so that no goal of another function writes out 4,096 zeros.
pub fn no_marks() -> [u8; 4096]
    ensures { result ≡ unmarked }
{
    [0u8; 4096]
}

pub fn is_met(marks: &[u8], pair: usize) -> bool
    requires { MarkTable marks.now × (pair < pairs) }
    ensures { result ≡ met marks.now pair }
{
    marks[pair] != 0
}

pub fn meet(marks: &mut [u8], pair: usize)
    requires { MarkTable marks.old × (pair < pairs) }
    ensures { marks.new ≡ with_mark marks.old pair }
{
    marks[pair] = 1;
}
