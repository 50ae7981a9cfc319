// What two texts begin with in common.
ghost use Rattle.std.specs.Prelude.{◌≡◌};
ghost use Rattle.lexis.specs.Lang.{agree};

// How many bytes at the front of two texts agree.
pub(crate) fn common(a: &[u8], b: &[u8]) -> usize
    ensures { result ≡ agree a.now b.now }
{
    a.iter().zip(b).take_while(|(x, y)| x == y).count()
}
