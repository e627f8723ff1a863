// Scripts of one database, line by line.
use crate::Desk;
use position_state::WalkFault;

/// A line of a script, and the text of its reply.
pub type Case = (&'static str, &'static str);

/// The place of the first line of a script whose reply isn't so. The script opens its own sessions.
pub fn first_wrong(desk: &mut Desk, cases: &[Case]) -> Result<Option<usize>, WalkFault> {
    desk.close();
    let mut number = 0u32;
    for (place, (line, reply)) in cases.iter().enumerate() {
        number = number.saturating_add(1);
        let text = desk.answer(number, line.as_bytes())?;
        if text.as_slice() != reply.as_bytes() {
            return Ok(Some(place));
        }
    }
    Ok(None)
}
