//! One instruction of any kind.
ghost use Rattle.std.specs.Prelude.{◌≡◌, ◌<◌, ◌^◌, IfOk};
ghost use Rattle.c_code.specs.Machine.{step_of};
ghost use Rattle.task_vm.specs.Seen.{Shows};

use crate::asking::ask;
use crate::machine::{Machine, Step, breaks};
use c_code::{Code, Instr};
use mpc_values::{Call, Fault, Memory};

impl Machine {
    /// Takes the step of an instruction; of an MPI function's the script begins.
    #[tactic(auto, unfolding(c_code::specs::Machine::step_of))]
    pub(crate) fn perform(
        &mut self,
        code: &Code,
        instr: &Instr,
        call: &mut Call,
    ) -> Result<Step, Memory>
        requires { self.old.pc < 2 ^ 63 }
        ensures { IfOk result (λ r. Shows r call.new (step_of code.now instr.now self.old) self.old self.new) }
    {
        match instr {
            Instr::Push(word) => self.push(*word),
            Instr::Pop => Ok(self.pop()),
            Instr::Duplicate => self.duplicate(),
            Instr::Tuck => self.tuck(),
            Instr::Get { slot, line } => self.get(*slot, *line, call),
            Instr::Object { slot } => self.object(*slot),
            Instr::Set { slot } => Ok(self.set(*slot)),
            Instr::Unset { slot } => Ok(self.unset(*slot)),
            Instr::Load { line, .. } => Ok(self.load(*line, call)),
            Instr::Peek { line, .. } => Ok(self.load(*line, call)),
            Instr::Store { line } => Ok(self.store(*line, call)),
            Instr::Update { update, line } => Ok(self.update(*update, *line, call)),
            Instr::Negate { width, line } => Ok(self.negate(*width, *line, call)),
            Instr::Complement => Ok(self.complement()),
            Instr::Not => Ok(self.not()),
            Instr::Narrow => Ok(self.narrow()),
            Instr::Arithmetic {
                width,
                operation,
                line,
            } => Ok(self.arithmetic(*width, *operation, *line, call)),
            Instr::Compare { comparison } => Ok(self.compare(*comparison)),
            Instr::Same { wanted } => Ok(self.same(*wanted)),
            Instr::Truth => Ok(self.condition()),
            Instr::Unless(over) => Ok(self.unless(*over)),
            Instr::Skip(over) => Ok(self.skip(*over)),
            Instr::Again { back, line } => Ok(self.again(*back, *line, call)),
            Instr::Tick { line } => Ok(self.tick(*line, call)),
            Instr::Offset { back, words, line } => Ok(self.offset(*back, *words, *line, call)),
            Instr::Malloc { size, line } => Ok(self.malloc(*size, *line, call)),
            Instr::Free { line } => Ok(self.free(*line, call)),
            Instr::Call {
                function,
                count,
                line,
            } => self.enter(code, *function, *count, *line, call),
            Instr::Print { printed, line } => self.print(printed, *line, call),
            Instr::Mpi { mpi, count, line } => self.begin(*mpi, *count, *line),
            Instr::New { words, line, .. } => Ok(ask(call, Call::New { len: *words }, *line)),
            Instr::Release { slot, line } => Ok(self.release(*slot, *line, call)),
            Instr::SaveParam { slot } => self.save_param(*slot),
            Instr::NewParam { .. } => Ok(self.new_param(call)),
            Instr::StoreParam { slot } => Ok(self.store_param(*slot, call)),
            Instr::HlsEnter { construct, line } => {
                Ok(ask(
                    call,
                    Call::HlsEnter {
                        construct: *construct,
                    },
                    *line,
                ))
            }
            Instr::HlsWait { construct, line } => {
                Ok(ask(
                    call,
                    Call::HlsWait {
                        construct: *construct,
                    },
                    *line,
                ))
            }
            Instr::HlsExit { construct, line } => {
                Ok(ask(
                    call,
                    Call::HlsExit {
                        construct: *construct,
                    },
                    *line,
                ))
            }
            Instr::HlsBar { construct, line } => {
                Ok(ask(
                    call,
                    Call::HlsBar {
                        construct: *construct,
                    },
                    *line,
                ))
            }
            Instr::HlsBarWait { construct, line } => {
                Ok(ask(
                    call,
                    Call::HlsBarWait {
                        construct: *construct,
                    },
                    *line,
                ))
            }
            Instr::Missing { line } => Ok(breaks(call, Fault::Uninit, *line)),
            Instr::Return { line } => Ok(self.leave(*line, call)),
        }
    }
}
