// Data as they stand in a text, each piece behind a space.
ghost use Rattle.std.specs.Prelude.{◌≡◌, ◌<◌, true, [], ◌∷◌, map, vec_items, IfOk};
ghost use Rattle.std.specs.List.{list_all};
ghost use Rattle.names.specs.Names.{labels};
ghost use Rattle.records.specs.Contents.{bytes_of, content_of};
ghost use Rattle.zonetext.specs.Division.{Text};
ghost use Rattle.zonetext.specs.Appended.{Appends, AppendsIf};
ghost use Rattle.zonetext.specs.TextLaws.{are_bytes, is_address, good_data};
ghost use Rattle.zonetext.specs.Written.{hex_digit, hexadecimal, address_piece, other_piece, pieces_text, data_pieces, holds_text, holds_data};

use super::name::write_name;
use names::{Fault, Name};
use records::{Address, Data};

fn hex_digit(value: u8) -> u8
    requires { value < 16 }
    ensures { result ≡ hex_digit value }
{
    if value < 10 {
        b'0' + value
    } else {
        b'a' + (value - 10)
    }
}

fn write_hex(bytes: &[u8], out: &mut Vec<u8>) -> Result<(), Fault>
    ensures written { Appends out.old.items (hexadecimal bytes.now) result out.new.items }
    ensures good { IfOk result (λ _. are_bytes bytes.now ≡ true) }
{
    for byte in bytes {
        out.push(hex_digit(*byte / 16))?;
        out.push(hex_digit(*byte % 16))?;
    }
    Ok(())
}

fn write_address(address: &Address, out: &mut Vec<u8>) -> Result<(), Fault>
    ensures written { Appends out.old.items (pieces_text (address_piece (bytes_of address.now) ∷ [])) result out.new.items }
    ensures good { IfOk result (λ _. is_address (bytes_of address.now) ≡ true) }
{
    out.push(b' ')?;
    write_hex(&address.0, out)
}

fn write_addresses(addresses: &[Address], out: &mut Vec<u8>) -> Result<(), Fault>
    ensures written { Appends out.old.items (pieces_text (map address_piece (map bytes_of addresses.now))) result out.new.items }
    ensures good { IfOk result (λ _. list_all is_address (map bytes_of addresses.now) ≡ true) }
{
    for address in addresses {
        write_address(address, out)?;
    }
    Ok(())
}

// What has no bytes is a text without any, since a word has some.
fn write_other(piece: &[u8], out: &mut Vec<u8>) -> Result<(), Fault>
    ensures written { Appends out.old.items (pieces_text (other_piece piece.now ∷ [])) result out.new.items }
    ensures good { IfOk result (λ _. are_bytes piece.now ≡ true) }
{
    if piece.is_empty() {
        out.extend_from_slice(b" \"\"")?;
        return Ok(());
    }
    out.push(b' ')?;
    write_hex(piece, out)
}

fn write_others(pieces: &[Vec<u8>], out: &mut Vec<u8>) -> Result<(), Fault>
    ensures written { Appends out.old.items (pieces_text (map other_piece (map vec_items pieces.now))) result out.new.items }
    ensures good { IfOk result (λ _. list_all are_bytes (map vec_items pieces.now) ≡ true) }
{
    for piece in pieces {
        write_other(piece.as_slice(), out)?;
    }
    Ok(())
}

// Between quotes no quote can stand, and no line end.
fn is_quotable(text: &[u8]) -> bool
    ensures { result ≡ holds_text text.now }
{
    text.iter().all(|b| *b != b'"' && *b != b'\n')
}

fn write_text(text: &[u8], out: &mut Vec<u8>) -> Result<(), Fault>
    ensures { AppendsIf (holds_text text.now) out.old.items (pieces_text (Text text.now ∷ [])) result out.new.items }
{
    if !is_quotable(text) {
        return Err(Fault::BadData);
    }
    out.extend_from_slice(b" \"")?;
    out.extend_from_slice(text)?;
    out.push(b'"')?;
    Ok(())
}

fn write_texts(texts: &[Vec<u8>], out: &mut Vec<u8>) -> Result<(), Fault>
    ensures { AppendsIf (list_all holds_text (map vec_items texts.now)) out.old.items (pieces_text (map Text (map vec_items texts.now))) result out.new.items }
{
    for text in texts {
        write_text(text.as_slice(), out)?;
    }
    Ok(())
}

pub fn write_data(apex: &Name, content: &Data, out: &mut Vec<u8>) -> Result<(), Fault>
    ensures written { AppendsIf (holds_data (content_of content.now)) out.old.items (pieces_text (data_pieces (labels apex.now) (content_of content.now))) result out.new.items }
    ensures good { IfOk result (λ _. good_data (content_of content.now) ≡ true) }
{
    match content {
        Data::Addresses(addresses) => write_addresses(addresses.as_slice(), out),
        Data::Texts(texts) => write_texts(texts.as_slice(), out),
        Data::Others(pieces) => write_others(pieces.as_slice(), out),
        Data::Alias(name) => {
            out.push(b' ')?;
            write_name(apex, name, out)
        }
        Data::Delegation(to) => write_addresses(to.servers.as_slice(), out),
    }
}
