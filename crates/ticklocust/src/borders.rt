// Stored borders.
ghost use Rattle.std.specs.Prelude.{◌≡◌};
ghost use Rattle.border.specs.Border.{read_border, write_border};
ghost use Rattle.c_values.specs.Values.{told_lent};

use crate::told;

#[unsafe(no_mangle)]
pub extern "C" fn ticklocust_border_read(
    bytes: &[u8],
    cells: &mut [u32],
    level: &mut u32,
    count: &mut u32,
) -> u32
    ensures { ((result, (level.new, count.new)), cells.new)
        ≡ told_lent (read_border bytes.now cells.old) (level.old, count.old) }
{
    match border_reader::read(bytes, cells) {
        Ok(border) => {
            *level = border.level;
            *count = border.count;
            0
        }
        Err(refusal) => refusal as u32,
    }
}

#[unsafe(no_mangle)]
pub extern "C" fn ticklocust_border_write(
    level: u32,
    cells: &[u32],
    bytes: &mut [u8],
    length: &mut u32,
) -> u32
    ensures { ((result, length.new), bytes.new)
        ≡ told_lent (write_border level cells.now bytes.old) length.old }
{
    told::tell(border_writer::write(level, cells, bytes), length)
}
