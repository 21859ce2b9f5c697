// LMS signatures (RFC 8554), LMS_SHA256_M32_H10 with LMOTS_SHA256_N32_W4.
ghost use Rattle.std.specs.Prelude.{◌≡◌};
ghost use Rattle.lms.specs.Types.{LMOTS_SHA256_N32_W4, LMS_SHA256_M32_H10};
ghost use Rattle.lms.specs.Calls.{generate_code, generated, public_key_code, public_key_written, sign_code, signed};
ghost use Rattle.lms.specs.Check.{check_of};
ghost use Rattle.kozbrax.specs.Lms.{number_given};

use crate::NONE;

// The key's tree from a seed and an identifier, nodes 1 to 2,047 in order: 0, or 21 where `tree` is shorter.
#[unsafe(no_mangle)]
pub extern "C" fn kozbrax_lms_generate(seed: &[u8; 32], id: &[u8; 16], tree: &mut [u8]) -> u32
    ensures { (result ≡ generate_code LMS_SHA256_M32_H10 tree.old)
        × (tree.new ≡ generated LMOTS_SHA256_N32_W4 LMS_SHA256_M32_H10
        id.now seed.now tree.old) }
{
    lms::generate(6, 3, *seed, *id, tree)
}

// The public key of 56 bytes out of the key's tree: 0, or 21 where `tree` or `key` is shorter.
#[unsafe(no_mangle)]
pub extern "C" fn kozbrax_lms_public_key(id: &[u8; 16], tree: &[u8], key: &mut [u8]) -> u32
    ensures { (result ≡ public_key_code LMS_SHA256_M32_H10 tree.now key.old)
        × (key.new ≡ public_key_written LMOTS_SHA256_N32_W4 LMS_SHA256_M32_H10
        id.now tree.now key.old) }
{
    lms::public_key(6, 3, *id, tree, key)
}

// The signature of a text with a number of the key: 0, 21 where `tree` or `signature` is shorter, 17 where the number is 1,024 or more.
#[unsafe(no_mangle)]
pub extern "C" fn kozbrax_lms_sign(
    seed: &[u8; 32],
    id: &[u8; 16],
    number: u32,
    randomizer: &[u8; 32],
    text: &[u8],
    tree: &[u8],
    signature: &mut [u8],
) -> u32
    ensures { (result ≡ sign_code LMOTS_SHA256_N32_W4 LMS_SHA256_M32_H10 number tree.now signature.old)
        × (signature.new ≡ signed LMOTS_SHA256_N32_W4 LMS_SHA256_M32_H10
        id.now seed.now number randomizer.now text.now
        tree.now signature.old) }
{
    lms::sign(6, 3, *seed, *id, number, *randomizer, text, tree, signature)
}

// The number that a valid signature was made with, or 4294967295.
#[unsafe(no_mangle)]
pub extern "C" fn kozbrax_lms_check(key: &[u8], text: &[u8], signature: &[u8]) -> u32
    ensures { result ≡ number_given (check_of LMOTS_SHA256_N32_W4 LMS_SHA256_M32_H10
        key.now text.now signature.now) }
{
    lms::check(6, 3, key, text, signature).unwrap_or(NONE)
}
