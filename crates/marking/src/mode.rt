// File mode.
ghost use Rattle.marking.specs.Mode.{Modes};
ghost use Rattle.marking.specs.Aids.Mode.{AsksFor};
ghost use Rattle.calls.specs.Aids.Ready.{OnVolume};

use calls::refusal::Refusal;
use calls::{attribute, files, make_ready};
use diskette::Kind;

// What a call asks for.
#[derive(Clone, Copy)]
enum Function {
    Tell,
    Set,
}

impl TryFrom<u32> for Function {
    type Error = Refusal;

    ghost try_from_gives = { AsksFor };

    fn try_from(number: u32) -> Result<Function, Refusal> {
        match number {
            0 => Ok(Function::Tell),
            1 => Ok(Function::Set),
            _ => Err(Refusal::InvalidFunction),
        }
    }
}

// File mode on a volume that is ready.
fn mode_on(
    img: &mut [u8],
    k: Kind,
    t: &[u8],
    s: &[u8],
    function: u32,
    attr: u32,
) -> Result<u32, Refusal>
    requires { OnVolume img.old k }
    ensures { Modes img.old t.now s.now function attr result img.new }
{
    let asked = Function::try_from(function)?;
    let name = names::name_given(s).ok_or(Refusal::BreaksRules)?;
    let slot = files::file_named(img, k, name).ok_or(Refusal::FileNotFound)?;
    let a = k.slot_at(slot);
    match asked {
        Function::Tell => Ok(u32::from(fields::attr_at(img, a))),
        Function::Set => {
            if attribute::is_bad_attr(attr) || opened::is_open(t, slot) {
                return Err(Refusal::AccessDenied);
            }
            fields::put_attr(img, a, attr as u8);
            Ok(0)
        }
    }
}

pub fn mode(img: &mut [u8], t: &[u8], s: &[u8], function: u32, attr: u32) -> Result<u32, Refusal>
    ensures { Modes img.old t.now s.now function attr result img.new }
{
    let (k, _) = make_ready(img)?;
    mode_on(img, k, t, s, function, attr)
}
