// What the model shows: draw order, visibility, selections, expansion states, scroll position, last frame. An i32 is kept as
// its 32 bits until the summary is made.
ghost use Rattle.std.specs.Prelude.{◌≡◌};
ghost use Rattle.binary.specs.Answers.{read};
ghost use Rattle.section.specs.Model.{view, scroll};

use binary::refusal::Read;
use binary::{groups, numbers};

#[derive(Clone, Copy)]
pub struct View {
    pub draw_order_index: u8,
    pub visible: bool,
    pub selected_bone: u32,
    pub selected_morphs: [u32; 4],
}

#[derive(Clone, Copy)]
pub struct Scroll {
    pub vertical_scroll: u32,
    pub last_frame: u32,
}

#[tactic(auto, unfolding(crate::specs::Model::view))]
pub fn read_view(s: &[u8], at: usize) -> Read<View>
    ensures { read result ≡ view s.now at }
{
    let (draw_order_index, at) = numbers::read_u8(s, at)?;
    let (visible, at) = numbers::read_bool(s, at)?;
    let (selected_bone, at) = numbers::read_u32_le(s, at)?;
    let (selected_morphs, next) = groups::read_u32s_le(s, at)?;
    let view = View {
        draw_order_index,
        visible,
        selected_bone,
        selected_morphs,
    };
    Ok((view, next))
}

#[tactic(auto, unfolding(crate::specs::Model::scroll))]
pub fn read_scroll(s: &[u8], at: usize) -> Read<Scroll>
    ensures { read result ≡ scroll s.now at }
{
    let (expansions, at) = numbers::read_u8(s, at)?;
    let at = numbers::skip(s, at, expansions as usize)?;
    let (vertical_scroll, at) = numbers::read_u32_le(s, at)?;
    let (last_frame, next) = numbers::read_u32_le(s, at)?;
    let scroll = Scroll {
        vertical_scroll,
        last_frame,
    };
    Ok((scroll, next))
}
