// Numbers in bytes, the lowest byte first.
ghost use Rattle.std.specs.Prelude.{◌≡◌, ◌+◌, ◌^◌, ◌<◌, ◌≤◌, length, slice_index};
ghost use Rattle.tss_model.specs.Memory.{number_at, list_put};
ghost use Rattle.tss_model.specs.Core.{low_bytes};

/// The number in the `width` bytes from a place on.
#[inline(always)]
pub fn number(bytes: &[u8], at: usize, width: u32) -> u32
    requires width { width ≤ 4 }
    requires there { at + width ≤ length bytes.now }
    ensures exact { result ≡ number_at (slice_index bytes.now) at width }
    ensures fits { result < 256 ^ width }
{
    match width {
        4 => u32::from_le_bytes([bytes[at], bytes[at + 1], bytes[at + 2], bytes[at + 3]]),
        1 => u32::from(bytes[at]),
        2 => u32::from_le_bytes([bytes[at], bytes[at + 1], 0, 0]),
        3 => u32::from_le_bytes([bytes[at], bytes[at + 1], bytes[at + 2], 0]),
        _ => 0,
    }
}

/// Puts the `width` low bytes of a value from a place on.
#[inline(always)]
pub fn put(bytes: &mut [u8], at: usize, width: u32, value: u32)
    requires width { width ≤ 4 }
    requires there { at + width ≤ length bytes.old }
    ensures { bytes.new ≡ list_put bytes.old at (low_bytes width value) }
{
    match width {
        4 => {
            bytes[at + 3] = (value >> 24) as u8;
            bytes[at + 2] = ((value >> 16) & 0xFF) as u8;
            bytes[at + 1] = ((value >> 8) & 0xFF) as u8;
            bytes[at] = (value & 0xFF) as u8;
        }
        3 => {
            bytes[at + 2] = ((value >> 16) & 0xFF) as u8;
            bytes[at + 1] = ((value >> 8) & 0xFF) as u8;
            bytes[at] = (value & 0xFF) as u8;
        }
        2 => {
            bytes[at + 1] = ((value >> 8) & 0xFF) as u8;
            bytes[at] = (value & 0xFF) as u8;
        }
        1 => bytes[at] = (value & 0xFF) as u8,
        _ => {}
    }
}
