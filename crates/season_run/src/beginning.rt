// The set-up, which prints first.
ghost use Rattle.std.specs.Prelude.{◌≡◌, Ok};
ghost use Rattle.season_file.specs.File.{opening_of};
ghost use Rattle.season_run.specs.Season.{Opens, Turned, BeginPost};

use super::{State, Turn, in_room, last_line};
use encoding::encode;
use season_answers::record_length;
use season_file::Header;
use season_file::parsing::open;
use season_lines::write_line;

// Tries the set-up: its line, the record at the front of the codeword's buffer, of 32,768 bytes, and the serials at the front of theirs, of 32 numbers. The line's
// has 65,600 bytes; with other lengths nothing is done.
pub fn begin(input: &[u8], codeword: &mut [u8], serials: &mut [u32], line: &mut [u8]) -> Turn
    ensures { BeginPost input.now codeword.old serials.old line.old result codeword.new serials.new line.new }
{
    in_room(input, None, codeword, serials, line)
}

// The same where the buffers are as they should be.
pub(crate) fn begin_within(
    input: &[u8],
    codeword: &mut [u8; 32768],
    serials: &mut [u32; 32],
    line: &mut [u8; 65600],
) -> Turn
    ensures { Turned (Opens input.now) codeword.old serials.old line.old result codeword.new serials.new line.new }
{
    match open(input) {
        Err(fault) => last_line(input, line, 0, 0, u32::from(fault)),
        Ok(header) => set_up(input, header, codeword, serials, line),
    }
}

// A record of valid parameters is encoded at the front of the buffer. Others are refused before a length is looked at.
fn set_up(
    input: &[u8],
    header: Header,
    codeword: &mut [u8; 32768],
    serials: &mut [u32; 32],
    line: &mut [u8; 65600],
) -> Turn
    requires input_value { opening_of input.now ≡ Ok header }
    ensures { Turned (Opens input.now) codeword.old serials.old line.old result codeword.new serials.new line.new }
{
    let params = header.params;
    let length = record_length(params).unwrap_or(0);
    let nodes = params.n.min(32);
    let message = header.message.at;
    let message_end = message + header.message.count;
    let slack = header.slack.at;
    let slack_end = slack + header.slack.count;
    let answer = encode(
        params,
        &input[message..message_end],
        &input[slack..slack_end],
        &mut codeword[..length],
        &mut serials[..nodes],
    );
    if let Err(q) = answer {
        return last_line(input, line, 0, 0, u32::from(q));
    }
    let written = write_line(line, 0, 0, 0, &input[..0]);
    Turn {
        written,
        next: Some(State {
            params,
            number: 1,
            left: header.events,
            at: header.at,
        }),
    }
}
