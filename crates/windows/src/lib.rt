// Worked windows: small trees, and what the search finds in them.
#![tactic(auto)]

ghost use Rattle.std.specs.Prelude.{◌≡◌, length};
ghost use Rattle.windows.specs.Windows.{windows, WindowsShow};

// How many windows there are. The search finds in all of them what is expected.
pub fn count() -> usize
    ensures count { result ≡ length windows }
    ensures shown { WindowsShow }
{
    8
}
