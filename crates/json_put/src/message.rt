// What the JSON writer is given (json_message's specs/JsonWrite): `RawJson`, whose table of recipients is sound.
ghost use Rattle.std.specs.Prelude.{◌≡◌, true};
ghost use Rattle.recipients.specs.Parsed.{sound_table};

// The texts of the protected and the shared header, each absent where it is empty; the raw components; the recipients.
#[derive(Drop)]
pub struct Message<'a> {
    pub protected: &'a [u8],
    pub shared: &'a [u8],
    pub aad: &'a [u8],
    pub iv: &'a [u8],
    pub ciphertext: &'a [u8],
    pub tag: &'a [u8],
    pub recipients: &'a [u8],
    ghost sound: { sound_table recipients.now ≡ true },
}
