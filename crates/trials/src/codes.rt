// Writing and reading a code: the answers to `write ..` and `read ..`.
use crate::outgoing::Outgoing;
use crate::request::{count_in, put_said};
use code::{Fields, Reading};
use ground::{Lat, Lon, Point};

// `write ROOM LAT LON SCALE E W S N NUMBER`: the room has that many bytes `.`, 64 at most. The place is
// always 0.
pub(crate) fn answer_write(text: &[u8], out: &mut Outgoing) -> Option<()> {
    let mut numbers = [0u32; 9];
    let mut room = [b'.'; 64];
    if count_in(text, 5, &mut numbers)? != 9 {
        return None;
    }
    let [size, lat, lon, scale, east, west, south, north, number] = numbers;
    if room.len() < size as usize {
        return None;
    }
    let fields = Fields {
        reference: Point {
            lat: Lat(lat),
            lon: Lon(lon),
        },
        scale,
        east,
        west,
        south,
        north,
        number,
    };
    let room = &mut room[..size as usize];
    let answer = writer::write(room, fields);
    put_said(code::written_number(answer), 0, room, out);
    Some(())
}

// `read TEXT`: reads the rest of the line.
pub(crate) fn answer_read(text: &[u8], out: &mut Outgoing) -> Option<()> {
    if text.len() < 5 {
        return None;
    }
    let answer = reader::read(&text[5..]);
    out.put_decimal(code::reading_number(answer) as u64);
    out.put_number(code::reading_place(answer) as u64);
    match answer {
        Ok(reading) => put_reading(reading, out),
        Err(_) => put_all(&[0; 12], out),
    }
    Some(())
}

// The fields and the sides that a reading gives, each after one space.
fn put_reading(reading: Reading, out: &mut Outgoing) {
    let fields = reading.fields;
    let sides = reading.rectangle;
    let numbers = [
        fields.reference.lat.0,
        fields.reference.lon.0,
        fields.scale,
        fields.east,
        fields.west,
        fields.south,
        fields.north,
        fields.number,
        sides.west.0,
        sides.east.0,
        sides.south.0,
        sides.north.0,
    ];
    put_all(&numbers, out);
}

fn put_all(numbers: &[u32], out: &mut Outgoing) {
    for n in numbers {
        out.put_number(*n as u64);
    }
}
