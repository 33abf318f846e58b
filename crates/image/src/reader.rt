// The reader of images.
ghost use Rattle.std.specs.Prelude.{◌≡◌, ◌<◌};
ghost use Rattle.model.specs.Table.{fresh_table};
ghost use Rattle.records.specs.Records.{ports_in};
ghost use Rattle.image.specs.Image as Image;

use crate::checking;
use model::{Answer, Made, Table};

// Fills the fresh table of D = 1 with the image of d ports.
fn fill(table: &mut Table, bytes: &[u8], d: u8)
    requires fresh { table.old ≡ fresh_table 1 }
    requires some { 0 < d }
    requires ports { d ≡ ports_in bytes.now }
    ensures { table.new ≡ Image.held d bytes.now }
{
    table.shared = records::shared_in(bytes, d);
    // Stays a loop over numbers: no plainer, as two lists are filled, and a record's place goes by its port's number.
    for k in 0..d {
        let i = k as usize;
        table.ports[i] = records::port_in(bytes, k);
        table.copies[i] = records::copies_in(bytes, d, k);
    }
}

// What reading answers: the check's refusal, else DONE. Apart from `read`, so that each is proved by itself.
#[tactic(auto, using(crate::proofs::Laws::Reading::reading))]
fn answer(bytes: &[u8]) -> Answer
    ensures { result ≡ (Image.decode bytes.now).answer }
{
    match checking::check(bytes) {
        Ok(_) => Answer::Done,
        Err(answer) => answer,
    }
}

// Reads an image: BAD IMAGE, then BAD TABLE; refused, it gives the fresh table of D = 1.
#[tactic(auto, using(crate::proofs::Laws::Reading::reading))]
pub fn read(bytes: &[u8]) -> Made
    ensures { result ≡ Image.decode bytes.now }
{
    let mut made = answers::fresh(1);
    made.answer = answer(bytes);
    // A bad table has its D too: this test alone keeps it from being filled in.
    if answers::number(made.answer) == 0 {
        fill(&mut made.table, bytes, records::d_in(bytes));
    }
    made
}
