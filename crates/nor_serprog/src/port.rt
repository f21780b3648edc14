//! The contract of a port to a serial programmer.
ghost use Rattle.std.specs.Prelude.{◌≡◌, ◌∷◌, ◌++◌, true, length, OnOk, OnErr};
ghost use Rattle.nor_model.specs.Chip.{IsChip};
ghost use Rattle.nor_serprog.specs.Device.{PortState, IsSent, IsCutOff, IsReceived, IsSilent};

/// A port to a serial programmer: a terminal device, a socket, or a model in tests. Each call must return, so an
/// implementation that can block forever needs a timeout.
///
/// A port is *well-behaved* if `honest` of its `PortState` is true. Such a port passes all bytes to a programmer that
/// carries out O_SPIOP as the protocol says, and replies to whole frames of other commands as its `Firmware` says. The
/// programmer is idle if no command is incomplete and no reply is pending. While calls are left, these succeed:
///
/// - a call that sends all or the rest of an O_SPIOP frame, while no reply is pending; the O_SPIOP must send at most
///   260 bytes and read at most 4,096
/// - a call that sends whole frames of other commands to an idle programmer, with at most 260 bytes of frames and 4,096
///   bytes of replies; commands with arguments must be in the programmer's map
/// - a call of `receive` that requests no more bytes than are pending
///
/// One call may also send two O_SPIOP frames to an idle programmer, if the first requests no reply bytes and both fit
/// into the serial buffer that the programmer reports (Q_SERBUF). If this call succeeds, the programmer carries out
/// both, in order. If any call fails, no further call succeeds; a transaction may have been interrupted (`IsCut`), and
/// the chip may have lost its power.
///
/// Nothing is assumed about a port that isn't well-behaved, such as one of an operating system (`unknown_port`), except
/// that it doesn't become well-behaved, and that it records what each `send` was asked to send (`asked`) and what
/// `receive` returned (`received`). A `Wire` can record both.
pub trait Port {
    /// The cause of a failure of the port.
    type Cause: Drop;

    ghost state: { Self → PortState };

    /// Sends all of `bytes`. After an error, any number of them may have been sent.
    fn send(&mut self, bytes: &[u8]) -> Result<(), Self::Cause>
        ensures nature { (state self.new).honest ≡ (state self.old).honest }
        ensures asked { (state self.new).asked ≡ bytes.now ∷ (state self.old).asked }
        ensures unreceived { (state self.new).received ≡ (state self.old).received }
        ensures sent { (state self.old).honest ≡ true
            → OnOk result (IsSent bytes.now (state self.old) (state self.new)) }
        ensures cut_off { (state self.old).honest ≡ true
            → OnErr result (IsCutOff bytes.now (state self.old) (state self.new)) };

    /// Fills `bytes` with the next bytes from the programmer. If this fails, a well-behaved port leaves `bytes` as is.
    fn receive(&mut self, bytes: &mut [u8]) -> Result<(), Self::Cause>
        ensures nature { (state self.new).honest ≡ (state self.old).honest }
        ensures unasked { (state self.new).asked ≡ (state self.old).asked }
        ensures returned { OnOk result ((state self.new).received ≡ (state self.old).received ++ bytes.new) }
        ensures nothing { OnErr result ((state self.new).received ≡ (state self.old).received) }
        ensures received { (state self.old).honest ≡ true
            → OnOk result (IsReceived bytes.new (state self.old) (state self.new)) }
        ensures silent { (state self.old).honest ≡ true
            → OnErr result (IsSilent (length bytes.old) (state self.old) (state self.new)) }
        ensures unread { (state self.old).honest ≡ true → OnErr result (bytes.new ≡ bytes.old) };

    /// Proves that the status bits, bytes and polls of a chip at a well-behaved port are in range (`IsChip`).
    ghost reaches: { (port : Self) → (state port).honest ≡ true → IsChip (state port).device.chip };
}
