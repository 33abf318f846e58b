// The form of a record of N fields: the bytes that each takes, and those of all. No field is wider than the code's numbers.
ghost use Rattle.std.specs.Prelude.{◌≡◌, true, length};
ghost use Rattle.model.specs.Bytes.{sum};
ghost use Rattle.layout.specs.Widths.{narrow};

#[derive(Clone, Copy)]
pub struct Form<const N: usize> {
    pub widths: [usize; N],
    pub size: usize,
    pub ghost many: { length widths ≡ N },
    pub ghost whole: { size ≡ sum widths },
    pub ghost small: { narrow widths ≡ true },
}
