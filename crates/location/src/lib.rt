// The location of a code: the 27 bits of an angle, those of two angles paired, and the reference
// that they tell.
#![tactic(auto)]

ghost use Rattle.std.specs.Prelude.{◌≡◌, ◌≤◌};
ghost use Rattle.location.specs.Location.{direction_bits, bits_of, angle_in, paired, latters, location_of, lat_in, lon_in, reference_in};

use ground::{Lat, Lon, Point};

// A degree, a minute, a second and the location cell's size in 64 bits, which the angle of any bits may need.
const DEGREE: u64 = ground::DEGREE as u64;

const MINUTE: u64 = ground::MINUTE as u64;

const SECOND: u64 = ground::SECOND as u64;

const LOCATION_SIZE: u64 = ground::LOCATION_SIZE as u64;

// So many bits for each direction.
const DIRECTION_BITS: u32 = 27;

// The 27 bits of an angle.
#[tactic(auto, unfolding(crate::specs::Location::bits_of))]
fn bits_of(angle: u32) -> u32
    ensures { result ≡ bits_of angle }
{
    let degrees = angle / ground::DEGREE;
    let minutes = angle % ground::DEGREE / ground::MINUTE;
    let seconds = angle % ground::MINUTE / ground::SECOND;
    ((degrees * 64 + minutes) * 64 + seconds) * 64 + angle % ground::SECOND / ground::LOCATION_SIZE
}

// The angle that 27 bits tell.
#[tactic(auto, unfolding(crate::specs::Location::angle_in))]
fn angle_in(bits: u32) -> u64
    ensures { result ≡ angle_in bits }
{
    let degrees = (bits / 262144) as u64;
    let minutes = (bits / 4096 % 64) as u64;
    let seconds = (bits / 64 % 64) as u64;
    let last = (bits % 64) as u64;
    degrees * DEGREE + minutes * MINUTE + seconds * SECOND + last * LOCATION_SIZE
}

// The last n bits of two numbers, paired.
#[tactic(auto, using(crate::specs::LocationLaws::paired_none, crate::specs::LocationLaws::paired_more, crate::specs::LocationLaws::paired_below))]
fn pair(n: u32, a: u32, b: u32) -> u64
    requires { n ≤ direction_bits }
    ensures { result ≡ paired n a b }
{
    if n == 0 {
        return 0;
    }
    pair(n - 1, a / 2, b / 2) * 4 + (a % 2 * 2 + b % 2) as u64
}

// The latter bit of each of the last three pairs.
#[tactic(auto, unfolding(crate::specs::Location::latters))]
fn latter_three(x: u64) -> u32
    ensures { result ≡ latters 3 x }
{
    (x / 16 % 2 * 4 + x / 4 % 2 * 2 + x % 2) as u32
}

// The same of the last nine: three at a time, so that no call is made for each bit.
fn latter_nine(x: u64) -> u32
    ensures { result ≡ latters 9 x }
{
    latter_three(x / 4096) * 64 + latter_three(x / 64) * 8 + latter_three(x)
}

// The same of the last 27, nine at a time.
fn unpair(x: u64) -> u32
    ensures { result ≡ latters direction_bits x }
{
    latter_nine(x / 68719476736) * 262144 + latter_nine(x / 262144) * 512 + latter_nine(x)
}

// The 55 bits of a reference, the closing 1 among them.
#[tactic(auto, using(crate::specs::LocationLaws::paired_below), unfolding(crate::specs::Location::location_of))]
pub fn location_of(p: Point) -> u64
    ensures { result ≡ location_of p }
{
    pair(DIRECTION_BITS, bits_of(p.lat.0), bits_of(p.lon.0)) * 2 + 1
}

// The latitude's 27 bits of a location's 55.
pub fn lat_in(location: u64) -> u32
    ensures { result ≡ lat_in location }
{
    unpair(location / 2 / 2)
}

// The longitude's 27 bits of a location's 55.
pub fn lon_in(location: u64) -> u32
    ensures { result ≡ lon_in location }
{
    unpair(location / 2)
}

// The reference that a location tells, of whatever bits.
#[tactic(auto, using(crate::specs::LocationLaws::angle_fits))]
pub fn reference_in(location: u64) -> Point
    ensures { result ≡ reference_in location }
{
    Point {
        lat: Lat(angle_in(lat_in(location)) as u32),
        lon: Lon(angle_in(lon_in(location)) as u32),
    }
}
