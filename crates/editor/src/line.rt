// A row read as a line: where reading begins, and where it ends.
ghost use Rattle.std.specs.Prelude.{◌≡◌};
ghost use Rattle.editor.specs.Get.{column_of, end_of};

// No read column means 2.
pub fn column_of(reading: Option<u16>) -> u16
    ensures { result ≡ column_of reading }
{
    reading.unwrap_or(2)
}

// The column after the row's last one, of 2 to 39, that does not hold $20: 2 where all do.
pub fn end(screen: &[u8], row: u16) -> u16
    ensures { result ≡ end_of row screen.now }
{
    for column in (2..40).rev() {
        if base::byte_at(screen, row as usize * 40 + column) != 0x20 {
            return column as u16 + 1;
        }
    }
    2
}
