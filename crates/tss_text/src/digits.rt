// Hexadecimal digits.
ghost use Rattle.std.specs.Prelude.{◌≡◌, ◌*◌, length};
ghost use Rattle.hex.specs.Hex.{encode_lower};
ghost use Rattle.tss_text.specs.Digits.{hex_word as hex_word_of};

/// Eight lower-case hexadecimal digits.
pub fn hex_word(n: u32) -> [u8; 8]
    ensures { result ≡ hex_word_of n }
{
    let mut digits = [0; 8];
    match hex::encode_to_slice(n.to_be_bytes(), &mut digits) {
        Ok(()) => digits,
        Err(_) => unreachable!(),
    }
}

/// Writes two lower-case hexadecimal digits for each byte.
pub fn write_hex(bytes: &[u8], digits: &mut [u8])
    requires { length digits.old ≡ 2 * length bytes.now }
    ensures { digits.new ≡ encode_lower bytes.now }
{
    match hex::encode_to_slice(bytes, digits) {
        Ok(()) => {}
        Err(_) => unreachable!(),
    }
}
