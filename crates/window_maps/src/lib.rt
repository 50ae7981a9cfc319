// The whole maps of the worked windows.
#![tactic(auto)]

ghost use Rattle.std.specs.Prelude.{◌≡◌, length};
ghost use Rattle.window_maps.specs.Maps.{window_maps, WindowsMap};

// How many windows there are. The maps of all of them are what is expected.
pub fn count() -> usize
    ensures count { result ≡ length window_maps }
    ensures mapped { WindowsMap }
{
    8
}
