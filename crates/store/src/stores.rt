// A store known to be sound: its words, with their header, which is read once.
ghost use Rattle.std.specs.Prelude.{◌≡◌, true};
ghost use Rattle.model.specs.Layout.{sound};
ghost use Rattle.reads.specs.Cells.{Read};

use reads::cells::View;

#[derive(Clone, Copy)]
pub struct Sound<'a> {
    pub view: View<'a>,
    ghost sound: { sound view.words.now ≡ true },
    ghost read: { Read view.words.now view.header },
}

impl<'a> Sound<'a> {
    pub fn of(words: &'a [u32]) -> Sound<'a>
        requires { sound words.now ≡ true }
        ensures { result.view.words.now ≡ words.now }
    {
        Sound {
            view: View::of_sound(words),
        }
    }
}
