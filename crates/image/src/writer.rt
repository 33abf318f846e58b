// The writer of images.
ghost use Rattle.std.specs.Prelude.{◌≡◌, length};
ghost use Rattle.model.specs.Table.{fresh_table};
ghost use Rattle.image.specs.Image as Image;

use model::{Answer, Fault, Table};
use rules::{faults, good};

// Writes the image of a table, and answers its length: BAD TABLE, then SHORT ROOM; refused, the room is as it was.
#[tactic(auto, using(crate::proofs::Laws::Writing::writing))]
pub fn write(table: Table, room: &mut [u8]) -> Result<usize, Answer>
    ensures value { result ≡ Image.written (Image.write_answer table (length room.old)) table }
    ensures room_after { room.new ≡ Image.room_after (Image.write_answer table (length room.old)) table room.old }
{
    if let Some(fault) = faults::bad_in(&table) {
        return Err(Answer::BadTable(fault));
    }
    let s = table.shared;
    let d = s.d as u8;
    let size = layout::size(d);
    if room.len() < size {
        return Err(Answer::ShortRoom);
    }
    records::put_head(room, d);
    records::put_shared(room, s);
    // Stay loops over numbers: no plainer with the ports beside, as a record's place goes by its port's number.
    for k in 0..d {
        records::put_port(room, k, table.ports[k as usize]);
    }
    records::put_copied(room, d, s);
    for j in 0..d {
        records::put_copies(room, d, j, table.copies[j as usize]);
    }
    Ok(size)
}

// Writes the image of the fresh table of d ports, without a table: its head, and zeros.
pub fn blank(d: u64, room: &mut [u8]) -> Result<usize, Answer>
    ensures value { result ≡ Image.written (Image.write_answer (fresh_table d) (length room.old)) (fresh_table d) }
    ensures room_after { room.new ≡ Image.room_after (Image.write_answer (fresh_table d) (length room.old)) (fresh_table d) room.old }
{
    if !good::size_good(d) {
        return Err(Answer::BadTable(Fault::default()));
    }
    let m = d as u8;
    let long = layout::size(m);
    if room.len() < long {
        return Err(Answer::ShortRoom);
    }
    records::put_head(room, m);
    room[layout::HEAD_SIZE..long].fill(0);
    Ok(long)
}
