ghost use Rattle.std.specs.Prelude.{◌≡◌, ◌==◌, ◌<◌, ◌^◌, IfSome};
ghost use Rattle.std.specs.List.{slice_split};
ghost use Rattle.obj_text.specs.Obj as spec;

use line_text::{TextWhy, cut_at, whole_parts};

// The vertex of a corner word, i, i/t, i//n or i/t/n: whether its number has a `-`, and its size.
fn corner_index(word: &[u8]) -> Option<(bool, u64)>
    ensures value { result ≡ spec.corner_parts (slice_split (λ b. b == 47) word.now) }
    ensures below { IfSome result (λ parts. parts.1 < 10 ^ 10) }
{
    let (index, more) = cut_at(b'/', word);
    let Some(rest) = more else {
        return whole_parts(index);
    };
    let (texture, more) = cut_at(b'/', rest);
    let Some(rest) = more else {
        whole_parts(texture)?;
        return whole_parts(index);
    };
    let (normal, more) = cut_at(b'/', rest);
    if let Some(_) = more {
        return None;
    }
    if !texture.is_empty() {
        whole_parts(texture)?;
    }
    whole_parts(normal)?;
    whole_parts(index)
}

// The vertex that a corner names, where so many vertices were read before.
#[tactic(auto, unfolding(crate::specs::Obj::corner_of))]
pub(crate) fn corner(word: &[u8], read: u32) -> Result<u32, TextWhy>
    ensures { result ≡ spec.corner_of read word.now }
{
    let Some((negative, size)) = corner_index(word) else {
        return Err(TextWhy::Corner);
    };
    if size == 0 {
        return Err(TextWhy::Corner);
    }
    if negative {
        if size > u64::from(read) {
            return Err(TextWhy::Corner);
        }
        return Ok((u64::from(read) + 1 - size) as u32);
    }
    if size > u64::from(u32::MAX) {
        return Err(TextWhy::Corner);
    }
    Ok(size as u32)
}
