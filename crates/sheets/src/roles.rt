// The grid of three roles by six operations, and what a trainee sees of another's sheet.
ghost use Rattle.std.specs.Prelude.{◌≡◌, ◌<◌};
ghost use Rattle.runs.specs.Roles as runs;
ghost use Rattle.sheets.specs.View.{fields_of, role_of, caller_of, operation_of};

use crate::{Sheet, UNMARKED};

#[derive(Clone, Copy, PartialEq, Eq, Debug)]
pub enum Role {
    Trainee,
    Tutor,
    Examiner,
}

// What a run that is added is to have: a sample, and `count` pages from page `first` on.
#[derive(Clone, Copy, PartialEq, Eq, Debug)]
pub struct NewRun {
    pub sample: u32,
    pub first: u32,
    pub count: u32,
}

// An operation with its arguments.
#[derive(Clone, Copy, PartialEq, Eq, Debug)]
pub enum Operation {
    Add(NewRun),
    // a run
    Look(u32),
    // a position
    List(u32),
    Read { run: u32, index: u32 },
    // the run to replace, and what replaces it
    Replace { run: u32, by: NewRun },
    Mark { run: u32, mark: u32 },
}

// Who calls: the role, and the trainee number, which an added run takes.
#[derive(Clone, Copy, PartialEq, Eq, Debug)]
pub struct Caller {
    pub role: Role,
    pub number: u32,
}

// Rows trainee, tutor, examiner; columns add, look, list, read, replace, mark. A table, since the definition `grid` is one.
const GRID: [[bool; 6]; 3] = [
    [true, true, true, true, false, false],
    [true, true, true, true, true, false],
    [true, true, true, true, true, true],
];

fn row(role: Role) -> usize
    ensures { (result ≡ runs.row_of (role_of role)) × (result < 3) }
{
    match role {
        Role::Trainee => 0,
        Role::Tutor => 1,
        Role::Examiner => 2,
    }
}

fn column(op: Operation) -> usize
    ensures { (result ≡ runs.column_of (operation_of op)) × (result < 6) }
{
    match op {
        Operation::Add(_) => 0,
        Operation::Look(_) => 1,
        Operation::List(_) => 2,
        Operation::Read { .. } => 3,
        Operation::Replace { .. } => 4,
        Operation::Mark { .. } => 5,
    }
}

// Whether the grid lets a role do an operation.
#[tactic(auto, unfolding(runs::specs::Roles::allowed, runs::specs::Roles::grid))]
pub fn allows(role: Role, op: Operation) -> bool
    ensures { result ≡ runs.allowed (role_of role) (operation_of op) }
{
    GRID[row(role)][column(op)]
}

// What the caller sees of a sheet.
#[tactic(auto, unfolding(runs::specs::Roles::masked, runs::specs::Roles::another))]
pub fn mask(w: Caller, s: Sheet) -> Sheet
    ensures { fields_of result ≡ runs.masked (caller_of w) (fields_of s) }
{
    if w.role == Role::Trainee && s.trainee != w.number {
        return Sheet {
            trainee: 0,
            mark: UNMARKED,
            ..s
        };
    }
    s
}
