// The answers that a seat may give, as its line lists them.
ghost use Rattle.std.specs.Prelude.{◌≡◌, ◌∷◌, ◌++◌, [], true, None, map, flat_map, codes, OnOk, OnErr};
ghost use Rattle.mj_bytes.specs.Adds.{Adds};
ghost use Rattle.mj_deeds.specs.declared.answer.Answer.TheVariants as answers;
ghost use Rattle.mj_forms.specs.Lines.{bracketed, joined};
ghost use Rattle.mj_forms.specs.Choices.{pai_text, type_field, actor_field, target_field, pai_field, consumed_field, tsumogiri_field, answer_text, possible_text, line_with};

use crate::pieces::{push_quoted, push_tile};
use mj_bytes::{push_all, push_number};
use mj_deeds::{Answer, Answers, Pai};
use std::alloc::{AllocError, Global};

// Writes a list of answers into a line, as its last field.
#[tactic(auto, unfolding(mj_forms::specs::Choices::line_with))]
pub(crate) fn list_answers(line: &mut Vec<u8>, answers: &[Answer]) -> Result<(), AllocError>
    ensures { OnOk result (line.new.items ≡ line_with answers.now line.old.items) }
{
    line.truncate(line.len().saturating_sub(2));
    push_list(line, answers)
}

/// Writes a line with a list of answers as its last field after a text. The only error is running out of memory, and then the
/// text stays as it was. After an empty text it takes no memory but the text's.
#[inline(always)]
pub fn write_listed(
    alloc: Global,
    line: &[u8],
    answers: &Answers,
    into: &mut Vec<u8>,
) -> Result<(), AllocError>
    ensures ok { OnOk result (Adds into.old.items into.new.items
        (line_with answers.now line.now)) }
    ensures err { OnErr result (into.new.items ≡ into.old.items) }
{
    if into.is_empty() {
        return list_first(line, answers.as_slice(), into);
    }
    list_behind(alloc, line, answers.as_slice(), into)
}

// Writes a line with a list of answers after a text: it has memory of its own, so that the text stays where that is wanting.
#[inline(never)]
fn list_behind(
    alloc: Global,
    line: &[u8],
    answers: &[Answer],
    into: &mut Vec<u8>,
) -> Result<(), AllocError>
    ensures ok { OnOk result (Adds into.old.items into.new.items
        (line_with answers.now line.now)) }
    ensures err { OnErr result (into.new.items ≡ into.old.items) }
{
    let mut text = Vec::new(alloc);
    push_listed(&mut text, line, answers)?;
    push_all(into, text.as_slice())
}

// Writes a line with a list of answers where no text stands before it, and leaves none where memory is wanting.
#[inline(always)]
fn list_first(line: &[u8], answers: &[Answer], text: &mut Vec<u8>) -> Result<(), AllocError>
    ensures ok { OnOk result (text.new.items ≡ line_with answers.now line.now) }
    ensures err { OnErr result (text.new.items ≡ []) }
{
    text.clear();
    let done = push_listed(text, line, answers);
    if done.is_err() {
        text.clear();
    }
    done
}

// Writes a line with a list of answers as its last field.
#[inline(always)]
#[tactic(auto, unfolding(mj_forms::specs::Choices::line_with))]
fn push_listed(text: &mut Vec<u8>, line: &[u8], answers: &[Answer]) -> Result<(), AllocError>
    ensures { OnOk result (Adds text.old.items text.new.items (line_with answers.now line.now)) }
{
    let end = line.len().saturating_sub(2);
    push_all(text, &line[..end])?;
    push_list(text, answers)?;
    Ok(())
}

// Writes the field with the list, and the end of the line. A pass alone is the list of most seats at most deeds.
fn push_list(line: &mut Vec<u8>, answers: &[Answer]) -> Result<(), AllocError>
    ensures { OnOk result (Adds line.old.items line.new.items
        (codes ",\"possible_actions\":" ++ possible_text answers.now ++ codes "}\n")) }
{
    if is_pass_alone(answers) {
        return push_pass_alone(line);
    }
    push_all_listed(line, answers)
}

// Whether the list is a pass alone, which names no actor.
fn is_pass_alone(list: &[Answer]) -> bool
    ensures { result ≡ true → list.now ≡ answers.Pass None ∷ [] }
{
    matches!(list, [Answer::Pass { actor: None }])
}

// Writes the field with a pass alone, and the end of the line.
fn push_pass_alone(line: &mut Vec<u8>) -> Result<(), AllocError>
    ensures { OnOk result (Adds line.old.items line.new.items
        (codes ",\"possible_actions\":" ++ possible_text (answers.Pass None ∷ [])
        ++ codes "}\n")) }
{
    push_all(line, b",\"possible_actions\":[{\"type\":\"none\"}]}\n")?;
    Ok(())
}

// Writes the field with the list, whatever it is, and the end of the line.
fn push_all_listed(line: &mut Vec<u8>, answers: &[Answer]) -> Result<(), AllocError>
    ensures { OnOk result (Adds line.old.items line.new.items
        (codes ",\"possible_actions\":" ++ possible_text answers.now ++ codes "}\n")) }
{
    push_all(line, b",\"possible_actions\":")?;
    push_answers(line, answers)?;
    push_all(line, b"}\n")?;
    Ok(())
}

// Writes the answers, in brackets.
#[tactic(auto, unfolding(mj_forms::specs::Choices::possible_text, mj_forms::specs::Lines::bracketed))]
fn push_answers(line: &mut Vec<u8>, answers: &[Answer]) -> Result<(), AllocError>
    ensures { OnOk result (Adds line.old.items line.new.items (possible_text answers.now)) }
{
    push_all(line, b"[")?;
    push_joined_answers(line, answers)?;
    push_all(line, b"]")?;
    Ok(())
}

// Writes the answers with commas between.
fn push_joined_answers(line: &mut Vec<u8>, answers: &[Answer]) -> Result<(), AllocError>
    ensures { OnOk result (Adds line.old.items line.new.items
        (joined (map answer_text answers.now))) }
{
    match answers.split_first() {
        Some((first, rest)) => {
            push_answer(line, first)?;
            push_further_answers(line, rest)?;
            Ok(())
        }
        None => Ok(()),
    }
}

// Writes the answers, each after a comma.
fn push_further_answers(line: &mut Vec<u8>, answers: &[Answer]) -> Result<(), AllocError>
    ensures { OnOk result (Adds line.old.items line.new.items
        (flat_map (λ other. 44 ∷ other) (map answer_text answers.now))) }
{
    for answer in answers {
        push_further_answer(line, answer)?;
    }
    Ok(())
}

// Writes an answer after a comma; of all answers most are discards.
fn push_further_answer(line: &mut Vec<u8>, answer: &Answer) -> Result<(), AllocError>
    ensures { OnOk result (Adds line.old.items line.new.items (44 ∷ answer_text answer.now)) }
{
    match answer {
        Answer::Discard { actor, tile, drawn } => {
            push_further_discard(line, *actor, *tile, *drawn)
        }
        other => {
            push_all(line, b",")?;
            push_answer(line, other)?;
            Ok(())
        }
    }
}

// Writes a discard after a comma.
#[tactic(auto, unfolding(mj_forms::specs::Choices::pai_field))]
fn push_further_discard(
    line: &mut Vec<u8>,
    actor: u8,
    tile: Pai,
    drawn: bool,
) -> Result<(), AllocError>
    ensures { OnOk result (Adds line.old.items line.new.items
        (44 ∷ type_field (codes "dahai") ++ actor_field actor ++ pai_field tile
        ++ tsumogiri_field drawn ++ codes "}")) }
{
    push_further_front(line, actor)?;
    push_pai_text(line, tile)?;
    push_drawn(line, drawn)?;
    Ok(())
}

// Writes a comma, and a discard as far as its tile.
fn push_further_front(line: &mut Vec<u8>, actor: u8) -> Result<(), AllocError>
    ensures { OnOk result (Adds line.old.items line.new.items
        (44 ∷ type_field (codes "dahai") ++ actor_field actor ++ codes ",\"pai\":")) }
{
    match actor {
        0 => push_all(line, b",{\"type\":\"dahai\",\"actor\":0,\"pai\":"),
        1 => push_all(line, b",{\"type\":\"dahai\",\"actor\":1,\"pai\":"),
        2 => push_all(line, b",{\"type\":\"dahai\",\"actor\":2,\"pai\":"),
        3 => push_all(line, b",{\"type\":\"dahai\",\"actor\":3,\"pai\":"),
        _ => {
            push_all(line, b",")?;
            push_discard_type(line)?;
            push_actor(line, actor)?;
            push_all(line, b",\"pai\":")?;
            Ok(())
        }
    }
}

// Writes an answer as an object.
fn push_answer(line: &mut Vec<u8>, answer: &Answer) -> Result<(), AllocError>
    ensures { OnOk result (Adds line.old.items line.new.items (answer_text answer.now)) }
{
    match answer {
        Answer::Unread => Ok(()),
        Answer::Pass { .. } => push_pass(line),
        Answer::Discard { actor, tile, drawn } => push_discard(line, *actor, *tile, *drawn),
        Answer::Chi {
            actor,
            target,
            tile,
            a,
            b,
        } => push_call(line, b"chi", *actor, *target, *tile, &[*a, *b]),
        Answer::Pon {
            actor,
            target,
            tile,
            a,
            b,
        } => push_call(line, b"pon", *actor, *target, *tile, &[*a, *b]),
        Answer::OpenKan {
            actor,
            target,
            tile,
            a,
            b,
            c,
        } => push_call(line, b"daiminkan", *actor, *target, *tile, &[*a, *b, *c]),
        Answer::ClosedKan { actor, a, b, c, d } => {
            push_closed_kan(line, *actor, &[*a, *b, *c, *d])
        }
        Answer::AddedKan {
            actor,
            tile,
            a,
            b,
            c,
        } => push_added_kan(line, *actor, *tile, &[*a, *b, *c]),
        Answer::Reach { actor } => push_plain(line, b"reach", *actor),
        Answer::Win { actor, target, .. } => push_win(line, *actor, *target),
        Answer::NineKinds { actor } => push_plain(line, b"ryukyoku", *actor),
    }
}

// Writes a pass.
fn push_pass(line: &mut Vec<u8>) -> Result<(), AllocError>
    ensures { OnOk result (Adds line.old.items line.new.items (type_field (codes "none") ++ codes "}")) }
{
    push_type(line, b"none")?;
    push_all(line, b"}")?;
    Ok(())
}

// Writes a discard.
fn push_discard(line: &mut Vec<u8>, actor: u8, tile: Pai, drawn: bool) -> Result<(), AllocError>
    ensures { OnOk result (Adds line.old.items line.new.items
        (type_field (codes "dahai") ++ actor_field actor ++ pai_field tile
        ++ tsumogiri_field drawn ++ codes "}")) }
{
    push_discard_type(line)?;
    push_actor(line, actor)?;
    push_pai(line, tile)?;
    push_drawn(line, drawn)?;
    Ok(())
}

// Writes the type of a discard: of all answers most are discards.
#[tactic(auto, unfolding(mj_forms::specs::Choices::type_field))]
fn push_discard_type(line: &mut Vec<u8>) -> Result<(), AllocError>
    ensures { OnOk result (Adds line.old.items line.new.items (type_field (codes "dahai"))) }
{
    push_all(line, b"{\"type\":\"dahai\"")?;
    Ok(())
}

// Writes a call of a discard, under its type.
fn push_call(
    line: &mut Vec<u8>,
    type_name: &[u8],
    actor: u8,
    target: u8,
    tile: Pai,
    own: &[Pai],
) -> Result<(), AllocError>
    ensures { OnOk result (Adds line.old.items line.new.items
        (type_field type_name.now ++ actor_field actor ++ target_field target ++ pai_field tile
        ++ consumed_field own.now ++ codes "}")) }
{
    push_type(line, type_name)?;
    push_actor(line, actor)?;
    push_target(line, target)?;
    push_pai(line, tile)?;
    push_consumed(line, own)?;
    push_all(line, b"}")?;
    Ok(())
}

// Writes a kan of concealed tiles.
fn push_closed_kan(line: &mut Vec<u8>, actor: u8, own: &[Pai]) -> Result<(), AllocError>
    ensures { OnOk result (Adds line.old.items line.new.items
        (type_field (codes "ankan") ++ actor_field actor ++ consumed_field own.now
        ++ codes "}")) }
{
    push_type(line, b"ankan")?;
    push_actor(line, actor)?;
    push_consumed(line, own)?;
    push_all(line, b"}")?;
    Ok(())
}

// Writes an added kan, with its triplet.
fn push_added_kan(
    line: &mut Vec<u8>,
    actor: u8,
    tile: Pai,
    triplet: &[Pai],
) -> Result<(), AllocError>
    ensures { OnOk result (Adds line.old.items line.new.items
        (type_field (codes "kakan") ++ actor_field actor ++ pai_field tile
        ++ consumed_field triplet.now ++ codes "}")) }
{
    push_type(line, b"kakan")?;
    push_actor(line, actor)?;
    push_pai(line, tile)?;
    push_consumed(line, triplet)?;
    push_all(line, b"}")?;
    Ok(())
}

// Writes an answer that names nothing but its actor.
fn push_plain(line: &mut Vec<u8>, type_name: &[u8], actor: u8) -> Result<(), AllocError>
    ensures { OnOk result (Adds line.old.items line.new.items
        (type_field type_name.now ++ actor_field actor ++ codes "}")) }
{
    push_type(line, type_name)?;
    push_actor(line, actor)?;
    push_all(line, b"}")?;
    Ok(())
}

// Writes a win, which names no tile.
fn push_win(line: &mut Vec<u8>, actor: u8, target: u8) -> Result<(), AllocError>
    ensures { OnOk result (Adds line.old.items line.new.items
        (type_field (codes "hora") ++ actor_field actor ++ target_field target
        ++ codes "}")) }
{
    push_type(line, b"hora")?;
    push_actor(line, actor)?;
    push_target(line, target)?;
    push_all(line, b"}")?;
    Ok(())
}

// Writes the type of an answer.
#[tactic(auto, unfolding(mj_forms::specs::Choices::type_field))]
fn push_type(line: &mut Vec<u8>, type_name: &[u8]) -> Result<(), AllocError>
    ensures { OnOk result (Adds line.old.items line.new.items (type_field type_name.now)) }
{
    push_all(line, b"{\"type\":")?;
    push_quoted(line, type_name)?;
    Ok(())
}

// Writes the seat of an answer.
#[tactic(auto, unfolding(mj_forms::specs::Choices::actor_field))]
fn push_actor(line: &mut Vec<u8>, actor: u8) -> Result<(), AllocError>
    ensures { OnOk result (Adds line.old.items line.new.items (actor_field actor)) }
{
    push_all(line, b",\"actor\":")?;
    push_number(line, u64::from(actor))?;
    Ok(())
}

// Writes the seat whose tile is taken or won on.
#[tactic(auto, unfolding(mj_forms::specs::Choices::target_field))]
fn push_target(line: &mut Vec<u8>, target: u8) -> Result<(), AllocError>
    ensures { OnOk result (Adds line.old.items line.new.items (target_field target)) }
{
    push_all(line, b",\"target\":")?;
    push_number(line, u64::from(target))?;
    Ok(())
}

// Writes the tile of an answer.
#[tactic(auto, unfolding(mj_forms::specs::Choices::pai_field))]
fn push_pai(line: &mut Vec<u8>, tile: Pai) -> Result<(), AllocError>
    ensures { OnOk result (Adds line.old.items line.new.items (pai_field tile)) }
{
    push_all(line, b",\"pai\":")?;
    push_pai_text(line, tile)?;
    Ok(())
}

// Writes whether the tile is the drawn one, and the end of a discard.
#[tactic(auto, unfolding(mj_forms::specs::Choices::tsumogiri_field))]
fn push_drawn(line: &mut Vec<u8>, drawn: bool) -> Result<(), AllocError>
    ensures { OnOk result (Adds line.old.items line.new.items
        (tsumogiri_field drawn ++ codes "}")) }
{
    if drawn {
        return push_all(line, b",\"tsumogiri\":true}");
    }
    push_all(line, b",\"tsumogiri\":false}")
}

// Writes the own tiles of an answer.
#[tactic(auto, unfolding(mj_forms::specs::Choices::consumed_field, mj_forms::specs::Lines::bracketed))]
fn push_consumed(line: &mut Vec<u8>, own: &[Pai]) -> Result<(), AllocError>
    ensures { OnOk result (Adds line.old.items line.new.items (consumed_field own.now)) }
{
    push_all(line, b",\"consumed\":")?;
    push_pais(line, own)?;
    Ok(())
}

// Writes the tiles, in brackets.
#[tactic(auto, unfolding(mj_forms::specs::Lines::bracketed))]
fn push_pais(line: &mut Vec<u8>, own: &[Pai]) -> Result<(), AllocError>
    ensures { OnOk result (Adds line.old.items line.new.items
        (bracketed (map pai_text own.now))) }
{
    push_all(line, b"[")?;
    push_joined_pais(line, own)?;
    push_all(line, b"]")?;
    Ok(())
}

// Writes the tiles with commas between.
fn push_joined_pais(line: &mut Vec<u8>, own: &[Pai]) -> Result<(), AllocError>
    ensures { OnOk result (Adds line.old.items line.new.items
        (joined (map pai_text own.now))) }
{
    match own.split_first() {
        Some((first, rest)) => {
            push_pai_text(line, *first)?;
            push_further_pais(line, rest)?;
            Ok(())
        }
        None => Ok(()),
    }
}

// Writes the tiles, each after a comma.
fn push_further_pais(line: &mut Vec<u8>, own: &[Pai]) -> Result<(), AllocError>
    ensures { OnOk result (Adds line.old.items line.new.items
        (flat_map (λ other. 44 ∷ other) (map pai_text own.now))) }
{
    for pai in own {
        push_all(line, b",")?;
        push_pai_text(line, *pai)?;
    }
    Ok(())
}

// Writes a tile as an answer names it.
#[tactic(auto, unfolding(mj_forms::specs::Lines::hidden_tile))]
fn push_pai_text(line: &mut Vec<u8>, tile: Pai) -> Result<(), AllocError>
    ensures { OnOk result (Adds line.old.items line.new.items (pai_text tile)) }
{
    match tile {
        Pai::Known(known) => push_tile(line, known),
        Pai::Hidden => push_quoted(line, b"?"),
    }
}
