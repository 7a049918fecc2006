// The 48 bytes of a usbmon header.
#![tactic(auto)]

ghost use Rattle.std.specs.Prelude.{◌≡◌};
ghost use Rattle.capture_record.specs.Headers.{header_bytes};

use capture_record::UsbHeader;

// The 48 bytes of a header.
pub fn header_bytes(header: UsbHeader) -> [u8; capture_file::USB_HEADER_LENGTH]
    ensures { result ≡ header_bytes header }
{
    let setup = header.setup;
    let mut cells = [0; capture_file::USB_HEADER_LENGTH];
    cells[0..8].copy_from_slice(&header.id.to_le_bytes());
    cells[8] = header.event_type;
    cells[9] = header.transfer_type;
    cells[10] = header.endpoint_address;
    cells[11] = header.device_address;
    cells[12..14].copy_from_slice(&header.bus_number.to_le_bytes());
    cells[14] = header.setup_flag;
    cells[15] = header.data_flag;
    cells[16..24].copy_from_slice(&header.seconds.to_le_bytes());
    cells[24..28].copy_from_slice(&header.microseconds.to_le_bytes());
    cells[28..32].copy_from_slice(&header.status.to_le_bytes());
    cells[32..36].copy_from_slice(&header.length.to_le_bytes());
    cells[36..40].copy_from_slice(&header.delivered.to_le_bytes());
    cells[40] = setup.request_type;
    cells[41] = setup.request;
    cells[42..44].copy_from_slice(&setup.value.to_le_bytes());
    cells[44..46].copy_from_slice(&setup.index.to_le_bytes());
    cells[46..48].copy_from_slice(&setup.length.to_le_bytes());
    cells
}
