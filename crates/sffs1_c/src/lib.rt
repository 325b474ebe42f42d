// What C calls: each call of the library under its name (include/sffs1.h), with the same clauses.

#![tactic(auto)]

ghost use Rattle.std.specs.Prelude.{◌≡◌};
ghost use Rattle.calls.specs.Refusal.{check, check_marked, number_of};
ghost use Rattle.calls.specs.Reading as spec;
ghost use Rattle.changes.specs.Changing as changing;
ghost use Rattle.sffs1.specs.Numbers.{Tells, TellsChecked, TellsFound, TellsRead, TellsPoint, TellsOutcome, TellsMade, TellsListed};

#[unsafe(no_mangle)]
pub extern "C" fn sffs1_check(image: &[u8], place: &mut u64) -> u8
    ensures { Tells (check image.now) result place.new }
{
    sffs1::sffs1_check(image, place)
}

#[unsafe(no_mangle)]
pub extern "C" fn sffs1_check_marked(image: &[u8], marks: &mut [u8], place: &mut u64) -> u8
    ensures { TellsChecked (check_marked image.now marks.old) result place.new marks.new }
{
    sffs1::sffs1_check_marked(image, marks, place)
}

#[unsafe(no_mangle)]
pub extern "C" fn sffs1_find(
    image: &[u8],
    path: &[u8],
    at: &mut u64,
    directory: &mut u8,
    first: &mut u64,
    second: &mut u64,
    place: &mut u64,
) -> u8
    ensures { TellsFound (spec.find image.now path.now) result at.new directory.new first.new second.new place.new }
{
    sffs1::sffs1_find(image, path, at, directory, first, second, place)
}

#[unsafe(no_mangle)]
pub extern "C" fn sffs1_read(
    image: &[u8],
    path: &[u8],
    position: u64,
    buffer: &mut [u8],
    count: &mut u64,
    place: &mut u64,
) -> u8
    ensures { TellsRead (spec.read image.now path.now position buffer.old) result count.new place.new buffer.new }
{
    sffs1::sffs1_read(image, path, position, buffer, count, place)
}

#[unsafe(no_mangle)]
pub extern "C" fn sffs1_read_point(
    image: &[u8],
    path: &[u8],
    number: u64,
    point: &mut [u8; 16],
    place: &mut u64,
) -> u8
    ensures { TellsPoint (spec.read_point image.now path.now number) result place.new point.new }
{
    sffs1::sffs1_read_point(image, path, number, point, place)
}

#[unsafe(no_mangle)]
pub extern "C" fn sffs1_format(image: &mut [u8], slots: u64) -> u8
    ensures { (result ≡ number_of (changing.format image.old slots).refusal) × (image.new ≡ (changing.format image.old slots).image) }
{
    sffs1::sffs1_format(image, slots)
}

#[unsafe(no_mangle)]
pub extern "C" fn sffs1_make_directory(
    image: &mut [u8],
    path: &[u8],
    slots: u64,
    at: &mut u64,
    place: &mut u64,
) -> u8
    ensures { TellsMade (changing.make image.old path.now (changing.directory slots)) result at.new place.new image.new }
{
    sffs1::sffs1_make_directory(image, path, slots, at, place)
}

#[unsafe(no_mangle)]
pub extern "C" fn sffs1_make_file(
    image: &mut [u8],
    path: &[u8],
    room: u64,
    at: &mut u64,
    place: &mut u64,
) -> u8
    ensures { TellsMade (changing.make image.old path.now (changing.file room)) result at.new place.new image.new }
{
    sffs1::sffs1_make_file(image, path, room, at, place)
}

#[unsafe(no_mangle)]
pub extern "C" fn sffs1_write(
    image: &mut [u8],
    path: &[u8],
    position: u64,
    bytes: &[u8],
    place: &mut u64,
) -> u8
    ensures { TellsOutcome (changing.write image.old path.now position bytes.now) result place.new image.new }
{
    sffs1::sffs1_write(image, path, position, bytes, place)
}

#[unsafe(no_mangle)]
pub extern "C" fn sffs1_set_length(
    image: &mut [u8],
    path: &[u8],
    length: u64,
    place: &mut u64,
) -> u8
    ensures { TellsOutcome (changing.set_length image.old path.now length) result place.new image.new }
{
    sffs1::sffs1_set_length(image, path, length, place)
}

#[unsafe(no_mangle)]
pub extern "C" fn sffs1_remove(image: &mut [u8], path: &[u8], place: &mut u64) -> u8
    ensures { TellsOutcome (changing.remove image.old path.now) result place.new image.new }
{
    sffs1::sffs1_remove(image, path, place)
}

#[unsafe(no_mangle)]
pub extern "C" fn sffs1_list(
    image: &[u8],
    numbers: &mut [u64],
    count: &mut u64,
    place: &mut u64,
) -> u8
    ensures { TellsListed image.now numbers.old result count.new place.new numbers.new }
{
    sffs1::sffs1_list(image, numbers, count, place)
}
