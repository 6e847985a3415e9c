//! The name and the value of a field (RFC 5322, section 2.2).
ghost use Rattle.std.specs.Prelude.{◌≡◌, ◌+◌, ◌-◌, ◌≤◌, true, false, length, take, drop, IfNone, IfSome};
ghost use Rattle.std.specs.List.{prefix_len, suffix_len};
ghost use Rattle.header_block.specs.Fields.{is_wsp as is_wsp_byte};
ghost use Rattle.header_block.specs.Parts.{colon_place as first_colon, is_name as is_name_text};
ghost use Rattle.header_block.specs.Parts.{is_good, is_name_byte as may_name, name_of, value_of};

// Space or tab.
pub(crate) fn is_wsp(byte: u8) -> bool
    ensures { result ≡ is_wsp_byte byte }
{
    byte == b' ' || byte == b'\t'
}

// How many bytes stand before the first colon, or in all.
fn colon_place(field: &[u8]) -> usize
    ensures within { result ≤ length field.now }
    ensures place { result ≡ first_colon field.now }
{
    for (i, byte) in field.iter().enumerate() {
        if *byte == b':' {
            return i;
        }
    }
    field.len()
}

// How many bytes are left without the spaces and tabs at the end.
fn len_without_wsp(text: &[u8]) -> usize
    ensures within { result ≤ length text.now }
    ensures len { result ≡ length text.now - suffix_len is_wsp_byte text.now }
{
    let mut len = text.len();
    while len > 0 && is_wsp(text[len - 1]) {
        len -= 1;
    }
    len
}

// How many spaces and tabs stand at the front.
fn wsp_len(text: &[u8]) -> usize
    ensures within { result ≤ length text.now }
    ensures len { result ≡ prefix_len is_wsp_byte text.now }
{
    for (i, byte) in text.iter().enumerate() {
        if !is_wsp(*byte) {
            return i;
        }
    }
    text.len()
}

// Whether a byte may stand in a field's name: it is printable ASCII but the space.
fn is_name_byte(byte: u8) -> bool
    ensures { result ≡ may_name byte }
{
    33 <= byte && byte <= 126
}

// Whether a text may be a field's name: it isn't empty, and each of its bytes may stand there.
fn is_name(name: &[u8]) -> bool
    ensures { result ≡ is_name_text name.now }
{
    let mut all = !name.is_empty();
    for byte in name {
        all &= is_name_byte(*byte);
    }
    all
}

// The name and the value of a field that has a colon and a name before it.
pub(crate) fn split_field(field: &[u8]) -> Option<(&[u8], &[u8])>
    ensures none { IfNone result (is_good field.now ≡ false) }
    ensures good { IfSome result (λ parts. is_good field.now ≡ true) }
    ensures name { IfSome result (λ parts. parts.0.now ≡ name_of field.now) }
    ensures value { IfSome result (λ parts. parts.1.now ≡ value_of field.now) }
{
    let colon = colon_place(field);
    if colon == field.len() {
        return None;
    }
    let front = &field[..colon];
    let name = &front[..len_without_wsp(front)];
    if !is_name(name) {
        return None;
    }
    let behind = &field[colon + 1..];
    Some((name, &behind[wsp_len(behind)..]))
}
