// A window of three by three pixels.
#![tactic(auto)]

ghost use Rattle.std.specs.Prelude.{◌^◌, ◌<◌};
ghost use Rattle.despeckle.specs.Window.{Slides};

// A window, by the number of its nine pixels.
#[derive(Clone, Copy)]
pub(crate) struct Window {
    pub(crate) number: u64,
    ghost small: { number < 2 ^ 9 },
}

impl Window {
    // internal: a column. The window with that column to the right of its last two.
    pub(crate) fn slide(self, column: u64) -> Window
        requires { column < 2 ^ 9 }
        ensures { Slides self.number column result.number }
    {
        Window {
            number: ((self.number & 0xDB) << 1) | column,
        }
    }
}
