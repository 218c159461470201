//! What openings and endings of passes record.
ghost use Rattle.std.specs.Prelude.{◌≡◌, ℕ, ◌≤◌, true, [], ◌∷◌, ◌++◌, length, map, take, None, option_map};
ghost use Rattle.command_list.specs.Commands.{SetDescriptorHeaps, OMSetRenderTargets, size};
ghost use Rattle.device.specs.Meaning.{sizes};
ghost use Rattle.encoder.specs.Opening.{target_of, clears, clear_records, no_target};
ghost use Rattle.encoder.specs.Opening.{render_pass, compute_pass, asks_opening};
ghost use Rattle.encoder.specs.Opening.{opening_records, ending_records};
ghost use Rattle.encoder.specs.Putting.{Put, Offered, event_records, CanBegin, frame_records, colour_of, HaveTargets};
ghost use Rattle.command_list.specs.Refusals.{fault_at, fault_of};

use crate::attachment::{ColorAttachment, MAX_COLOR_ATTACHMENTS};
use crate::flush::put;
use bindings::extent::Extent;
use command_list::command::{Command, Fixed};
use command_list::fault::{FULL, Fault, Number};
use device::recorder::Recorder;
use labels::label::Label;

// The bytes of the records: heaps, targets with none of them, each target, a clear, a viewport with
// a scissor rectangle, the end of an event.
const HEAPS_BYTES: usize = 4;

const TARGETS_BYTES: usize = 4;

const TARGET_BYTES: usize = 8;

const CLEAR_BYTES: usize = 27;

const FRAME_BYTES: usize = 46;

const EVENT_END_BYTES: usize = 3;

// The target of an attachment, or the null target where it is left out.
fn target(null_target: u64, attachment: &Option<ColorAttachment>) -> u64
    ensures { result ≡ target_of null_target attachment.now }
{
    attachment.map_or(null_target, |a| a.target)
}

// Every target is a handle. Refused: the first that is none, 3 at its index.
fn check_targets(null_target: u64, attachments: &[Option<ColorAttachment>]) -> Result<(), Fault>
    ensures { fault_of result ≡ fault_at 3 (no_target 0 null_target attachments.now) }
{
    for place in 0..attachments.len() {
        if target(null_target, &attachments[place]) == 0 {
            return Err(Number::Absent.at(place));
        }
    }
    Ok(())
}

// The handles of the targets, each at its attachment's place.
fn bound_targets(
    null_target: u64,
    attachments: &[Option<ColorAttachment>],
) -> [u64; MAX_COLOR_ATTACHMENTS]
    requires { length attachments.now ≤ 8 }
    ensures { take (length attachments.now) result ≡ map (target_of null_target) attachments.now }
{
    let mut targets = [0; MAX_COLOR_ATTACHMENTS];
    for place in 0..attachments.len() {
        targets[place] = target(null_target, &attachments[place]);
    }
    targets
}

// The first targets are bound, in their order.
fn put_targets<R: Recorder>(
    recorder: &mut R,
    targets: [u64; MAX_COLOR_ATTACHMENTS],
    count: usize,
) -> Result<(), Fault>
    requires few { count ≤ 8 }
    requires fits { size (OMSetRenderTargets (take count targets))
        ≤ (R.meaning recorder.old).space }
    ensures { Put (R.meaning recorder.old) (OMSetRenderTargets (take count targets) ∷ [])
        result (R.meaning recorder.new) }
{
    put(recorder, Command::OMSetRenderTargets(&targets[..count]))
}

// Whether an attachment is cleared at the opening.
fn is_cleared(attachment: &ColorAttachment) -> bool
    ensures { result ≡ clears attachment.now }
{
    attachment.ops & ColorAttachment::LOAD_CLEAR != 0
}

// The colour that an attachment is cleared to, if it is there and is cleared.
fn clear_colour(attachment: &Option<ColorAttachment>) -> Option<[u32; 4]>
    ensures { result ≡ colour_of attachment.now }
{
    match *attachment {
        Some(a) if is_cleared(&a) => Some(a.clear_value),
        _ => None,
    }
}

// The bytes of a clear of an attachment.
fn clear_size(attachment: &Option<ColorAttachment>) -> usize
    ensures value { result ≡ sizes (clear_records (attachment.now ∷ [])) }
    ensures small { result ≤ 27 }
{
    match clear_colour(attachment) {
        Some(_) => CLEAR_BYTES,
        None => 0,
    }
}

// The bytes of all clears.
fn clears_size(attachments: &[Option<ColorAttachment>]) -> usize
    requires { length attachments.now ≤ 8 }
    ensures value { result ≡ sizes (clear_records attachments.now) }
    ensures small { result ≤ 216 }
{
    let mut size = 0;
    for place in 0..attachments.len() {
        size += clear_size(&attachments[place]);
    }
    size
}

// All clears, in the attachments' order, each of the target at its place.
fn put_clears<R: Recorder>(
    recorder: &mut R,
    targets: [u64; MAX_COLOR_ATTACHMENTS],
    attachments: &[Option<ColorAttachment>],
) -> Result<(), Fault>
    requires few { length attachments.now ≤ 8 }
    requires bound { HaveTargets targets attachments.now }
    requires fits { sizes (clear_records attachments.now) ≤ (R.meaning recorder.old).space }
    ensures { Put (R.meaning recorder.old) (clear_records attachments.now)
        result (R.meaning recorder.new) }
{
    for place in 0..attachments.len() {
        if let Some(colour) = clear_colour(&attachments[place]) {
            let target = targets[place];
            put(recorder, Fixed::ClearRenderTargetView { target, colour })?;
        }
    }
    Ok(())
}

// The bytes of a label's event; no units stand for no label.
fn event_size(units: &[u16]) -> usize
    requires { CanBegin units.now }
    ensures value { result ≡ sizes (event_records units.now) }
    ensures small { result ≤ 517 }
{
    if units.is_empty() {
        0
    } else {
        3 + 2 * units.len()
    }
}

fn put_event<R: Recorder>(recorder: &mut R, units: &[u16]) -> Result<(), Fault>
    requires begins { CanBegin units.now }
    requires fits { sizes (event_records units.now) ≤ (R.meaning recorder.old).space }
    ensures { Put (R.meaning recorder.old) (event_records units.now)
        result (R.meaning recorder.new) }
{
    if units.is_empty() {
        return Ok(());
    }
    put(recorder, Command::BeginEvent(units))
}

// A render pass's label, heaps, targets, clears, viewport and scissor, all of it or nothing.
fn record_render<R: Recorder>(
    recorder: &mut R,
    null_target: u64,
    units: &[u16],
    extent: Extent,
    attachments: &[Option<ColorAttachment>],
) -> Result<(), Fault>
    requires begins { CanBegin units.now }
    requires few { length attachments.now ≤ 8 }
    ensures { let frame = frame_records null_target extent.width extent.height attachments.now in
        Offered (fault_at 3 (no_target 0 null_target attachments.now))
        (event_records units.now ++ frame) (R.meaning recorder.old)
        result (R.meaning recorder.new) }
{
    check_targets(null_target, attachments)?;
    let targets_size = TARGETS_BYTES + TARGET_BYTES * attachments.len();
    let size = event_size(units) + HEAPS_BYTES + targets_size + clears_size(attachments);
    if recorder.space() < size + FRAME_BYTES {
        return Err(FULL);
    }
    put_event(recorder, units)?;
    put(recorder, Fixed::SetDescriptorHeaps(true))?;
    let targets = bound_targets(null_target, attachments);
    put_targets(recorder, targets, attachments.len())?;
    put_clears(recorder, targets, attachments)?;
    put(recorder, Fixed::RSSetViewports(extent.viewport()))?;
    put(
        recorder,
        Fixed::RSSetScissorRects {
            left: 0,
            top: 0,
            right: extent.width(),
            bottom: extent.height(),
        },
    )
}

// A compute pass's label and heaps.
fn record_compute<R: Recorder>(recorder: &mut R, units: &[u16]) -> Result<(), Fault>
    requires { CanBegin units.now }
    ensures { Offered None (event_records units.now ++ (SetDescriptorHeaps true ∷ []))
        (R.meaning recorder.old) result (R.meaning recorder.new) }
{
    if recorder.space() < event_size(units) + HEAPS_BYTES {
        return Err(FULL);
    }
    put_event(recorder, units)?;
    put(recorder, Fixed::SetDescriptorHeaps(true))
}

// The end of a pass: heaps off, and the end of its label's event.
pub(crate) fn record_ending<R: Recorder>(recorder: &mut R, labelled: bool) -> Result<(), Fault>
    ensures { Offered None (ending_records labelled) (R.meaning recorder.old)
        result (R.meaning recorder.new) }
{
    let event_bytes = if labelled { EVENT_END_BYTES } else { 0 };
    if recorder.space() < HEAPS_BYTES + event_bytes {
        return Err(FULL);
    }
    put(recorder, Fixed::SetDescriptorHeaps(false))?;
    if labelled {
        put(recorder, Fixed::EndEvent)?;
    }
    Ok(())
}

// The opening of a render pass.
pub(crate) fn open_render<R: Recorder>(
    recorder: &mut R,
    null_target: u64,
    label: Option<&[u8]>,
    width: u32,
    height: u32,
    attachments: &[Option<ColorAttachment>],
) -> Result<(), Fault>
    ensures { let bytes = option_map (λ b. b.now) label.entry in
        let pass = render_pass bytes width height attachments.now in
        Offered (asks_opening null_target pass) (opening_records null_target pass)
        (R.meaning recorder.old) result (R.meaning recorder.new) }
{
    if attachments.len() > MAX_COLOR_ATTACHMENTS {
        return Err(Number::Range.at(MAX_COLOR_ATTACHMENTS));
    }
    let extent = Extent::new(width, height)?;
    match label {
        None => record_render(recorder, null_target, &[], extent, attachments),
        Some(bytes) => {
            let label = Label::new(bytes)?;
            record_render(recorder, null_target, label.units(), extent, attachments)
        }
    }
}

// The opening of a compute pass.
pub(crate) fn open_compute<R: Recorder>(recorder: &mut R, label: Option<&[u8]>) -> Result<(), Fault>
    ensures { let pass = compute_pass (option_map (λ b. b.now) label.entry) in
        (null : ℕ) → Offered (asks_opening null pass) (opening_records null pass)
        (R.meaning recorder.old) result (R.meaning recorder.new) }
{
    match label {
        None => record_compute(recorder, &[]),
        Some(bytes) => {
            let label = Label::new(bytes)?;
            record_compute(recorder, label.units())
        }
    }
}
