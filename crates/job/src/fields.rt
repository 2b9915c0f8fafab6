// The fields of a job, one after the other.
ghost use Rattle.std.specs.Prelude.{◌≡◌};
ghost use Rattle.std.specs.Iterator.{YieldsFirst, item_count};
ghost use Rattle.job.specs.Kinds.{read_kind};
ghost use Rattle.job.specs.Fields.{payload_at, job_width, whole_field, field_at, fields_from};
ghost use Rattle.job.specs.Answers.{width_numbers, width_answer, field_numbers, field_answer};

use crate::bytes::{byte_at, bytes_left, read2};
use crate::{Cause, Field, payload};
use cells::{THREAD_REGISTERS, THREADS, Width};

// The width of Dst's rows, from the settings' format and flags: they come first.
pub fn job_width(job: &[u8]) -> Width
    ensures width { result ≡ job_width job.now }
    ensures answer { width_numbers result ≡ width_answer job.now }
{
    let flags = byte_at(job, 4);
    control::width_from(
        byte_at(job, 3),
        flags % 2 == 1,
        flags / 2 % 2 == 1,
        flags / 4 % 2 == 1,
    )
}

// A whole field by its tag, which is any byte of the job (`read_kind` has a case for each); those of Dst rows go by the job's width. The field is made in each arm: one kind for all
// of them would be put together byte by byte.
fn read_field(job: &[u8], place: usize, tag: u8, payload: &[u8], next: usize) -> Field
    ensures { result ≡ whole_field place (read_kind (job_width job.now) tag payload.now) next }
{
    match tag {
        1 => Field {
            place,
            kind: payload::read_settings(payload),
            next,
        },
        2 => Field {
            place,
            kind: payload::read_load_rows(job_width(job), payload),
            next,
        },
        3 => Field {
            place,
            kind: payload::read_load_register(payload),
            next,
        },
        4 => Field {
            place,
            kind: payload::read_hand_over(payload),
            next,
        },
        5 => Field {
            place,
            kind: payload::read_issue(payload),
            next,
        },
        6 => Field {
            place,
            kind: payload::read_output_rows(job_width(job), payload),
            next,
        },
        7 => Field {
            place,
            kind: payload::read_output_register(payload),
            next,
        },
        8 => Field {
            place,
            kind: payload::read_zero_rows(job_width(job), payload),
            next,
        },
        _ => Field {
            place,
            kind: Err(Cause::Tag),
            next,
        },
    }
}

// The payload of the field whose tag stands at `at`: a part of the job's bytes, of a cut field what is left of it.
pub fn payload_at(job: &[u8], at: usize) -> &[u8]
    ensures { result.now ≡ payload_at job.now at }
{
    let n = job.len();
    if n < 3 {
        return &job[n..n];
    }
    if n - 3 < at {
        return &job[n..n];
    }
    let b = at + 3;
    let len = read2(job, at + 1) as usize;
    if n - b < len {
        return &job[b..n];
    }
    let e = b + len;
    &job[b..e]
}

// The field whose tag stands at `at`; bytes that are no whole field are a wrong one, up to the end. It is compiled on its own, and field_at stays small
// enough to become part of each walk.
#[inline(never)]
fn any_field_at(job: &[u8], at: usize) -> Field
    ensures { result ≡ field_at job.now at }
{
    let n = job.len();
    let cut = Field {
        place: at,
        kind: Err(Cause::CutOff),
        next: n,
    };
    if n < 3 {
        return cut;
    }
    if n - 3 < at {
        return cut;
    }
    let b = at + 3;
    let len = read2(job, at + 1) as usize;
    if n - b < len {
        return cut;
    }
    let e = b + len;
    read_field(job, at, job[at], &job[b..e], e)
}

// The same. Most fields of a job issue a word or load a register, in eight or nine bytes: where these are right a walk reads them in its own code, and only
// other fields by a call. Thread and register are tested first, so that no kind is put together byte by byte from a right and a wrong one; the reader's own
// tests then fall away.
#[inline(always)]
pub fn field_at(job: &[u8], at: usize) -> Field
    ensures field { result ≡ field_at job.now at }
    ensures answer { field_numbers result ≡ field_answer job.now at }
{
    if 9 <= bytes_left(job, at) {
        let tag = job[at];
        let len = read2(job, at + 1);
        let b = at + 3;
        if job[b] < THREADS {
            if (tag == 5) & (len == 5) {
                let e = b + 5;
                return Field {
                    place: at,
                    kind: payload::read_issue(&job[b..e]),
                    next: e,
                };
            }
            if (tag == 3) & (len == 6) & (u32::from(job[b + 1]) < THREAD_REGISTERS) {
                let e = b + 6;
                return Field {
                    place: at,
                    kind: payload::read_load_register(&job[b..e]),
                    next: e,
                };
            }
        }
    }
    // By a name of its own: what a call writes stays in memory, and the answers above would with it.
    let f = any_field_at(job, at);
    f
}

// A job's fields one after the other, from a place on.
#[derive(Drop)]
pub struct FieldWalk<'a> {
    job: &'a [u8],
    at: usize,
}

impl<'a> Iterator for FieldWalk<'a> {
    type Item = Field;

    ghost next_gives = { YieldsFirst (λ s. fields_from s.job.now s.at) };

    ghost remaining = { item_count (λ s. fields_from s.job.now s.at) };

    #[inline(always)]
    fn next(&mut self) -> Option<Field> {
        if self.at < self.job.len() {
            let f = field_at(self.job, self.at);
            self.at = f.next;
            return Some(f);
        }
        None
    }
}

// All of them.
pub fn each_field(job: &[u8]) -> FieldWalk<'_>
    ensures { (result.job.now ≡ job.now) × (result.at ≡ 0) }
{
    FieldWalk { job, at: 0 }
}

// Those from a place on.
pub fn each_field_from(job: &[u8], at: usize) -> FieldWalk<'_>
    ensures { (result.job.now ≡ job.now) × (result.at ≡ at) }
{
    FieldWalk { job, at }
}
